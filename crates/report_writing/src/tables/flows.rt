//! The lives of flows.

ghost use Rattle.std.specs.Prelude.{◌≡◌, ◌++◌, flat_map, OnOk};
ghost use Rattle.report_writing.specs.Gathered.{AreFew};
ghost use Rattle.report_writing.specs.Flows.{AreOrdered, told_of, life_line, order_text, columns_text};
ghost use Rattle.report_writing.specs.Flows.{flows_heading, left_out_text, flows_text};

use crate::tables::lives::push_life;
use crate::text::push_decimal;
use sched_report::LifeNumbers;
use std::alloc::AllocError;
use std::cmp::Reverse;

// How many lives there are in a report where not all are asked for.
const FEW: usize = 30;

// Puts lives in the order in which they are told: in that of their admissions, where all are, or else those first that
// asked for the most bytes, and of those that asked for as many those that live.
pub(crate) fn order_lives(lives: &mut Vec<LifeNumbers>, all: bool) -> Result<(), AllocError>
    requires { AreFew lives.old.items }
    ensures ordered { OnOk result (AreOrdered all lives.old.items lives.new.items) }
    ensures small { AreFew lives.new.items }
{
    if all {
        return Ok(());
    }
    lives.sort_by_key(|life| (Reverse(life.sums.asked), life.ended))
}

// The lives that are told: all, or else the first few.
pub(crate) fn told_of(lives: &[LifeNumbers], all: bool) -> &[LifeNumbers]
    requires { AreFew lives.now }
    ensures told { result.now ≡ told_of all lives.now }
    ensures small { AreFew result.now }
{
    if all {
        return lives;
    }
    &lives[..FEW.min(lives.len())]
}

// The lines of these lives.
fn push_lives(
    words: &mut Vec<u8>,
    ticks: u32,
    replaced: bool,
    lives: &[LifeNumbers],
) -> Result<(), AllocError>
    requires { AreFew lives.now }
    ensures { OnOk result (words.new.items
        ≡ words.old.items ++ flat_map (life_line ticks replaced) lives.now) }
{
    for life in lives {
        push_life(words, ticks, replaced, life)?;
    }
    Ok(())
}

// In which order the lives stand.
#[tactic(auto, unfolding(crate::specs::Flows::order_text))]
fn push_order(words: &mut Vec<u8>, all: bool) -> Result<(), AllocError>
    ensures { OnOk result (words.new.items ≡ words.old.items ++ order_text all) }
{
    if all {
        words.extend_from_slice(b"\nflows, in the order of their admissions:\n")
    } else {
        words.extend_from_slice(b"\nflows, those first that asked for the most bytes:\n")
    }
}

// The names of the columns.
#[tactic(auto, unfolding(crate::specs::Flows::flows_heading))]
fn push_heading(words: &mut Vec<u8>, replaced: bool) -> Result<(), AllocError>
    ensures { OnOk result (words.new.items ≡ words.old.items ++ flows_heading replaced) }
{
    if replaced {
        words.extend_from_slice(
            b" SID kind   asked/s granted ceiling  asks wait drop repl  middle     p99    most\n",
        )
    } else {
        words.extend_from_slice(
            b" SID kind   asked/s  granted  ceiling   asks wait drop  middle     p99    most\n",
        )
    }
}

// What the columns are.
#[tactic(auto, unfolding(crate::specs::Flows::columns_text))]
fn push_columns(words: &mut Vec<u8>, replaced: bool) -> Result<(), AllocError>
    ensures { OnOk result (words.new.items ≡ words.old.items ++ columns_text replaced) }
{
    words.extend_from_slice(
        b"bits per second asked, granted and at most; delays in milliseconds\n",
    )?;
    push_heading(words, replaced)
}

// Says how many lives there are, where some are left out.
#[tactic(auto, unfolding(crate::specs::Flows::left_out_text))]
pub(crate) fn push_left_out(words: &mut Vec<u8>, all: bool, lives: usize) -> Result<(), AllocError>
    ensures { OnOk result (words.new.items ≡ words.old.items ++ left_out_text all lives) }
{
    if all || lives <= FEW {
        return Ok(());
    }
    words.extend_from_slice(b"30 of ")?;
    push_decimal(words, lives as u64)?;
    words.extend_from_slice(b" lives of flows: those that asked for most bytes\n")
}

// The lives of flows, which stand in the order in which they are told: all of them, or the first few.
#[tactic(auto, unfolding(crate::specs::Flows::flows_text))]
pub(crate) fn push_flows(
    words: &mut Vec<u8>,
    ticks: u32,
    replaced: bool,
    lives: &[LifeNumbers],
    all: bool,
) -> Result<(), AllocError>
    requires { AreFew lives.now }
    ensures { OnOk result (words.new.items
        ≡ words.old.items ++ flows_text ticks replaced all lives.now) }
{
    if lives.is_empty() {
        return Ok(());
    }
    push_order(words, all)?;
    push_columns(words, replaced)?;
    push_lives(words, ticks, replaced, told_of(lives, all))?;
    push_left_out(words, all, lives.len())
}
