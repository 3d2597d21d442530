//! The lives of flows with a minimum reserved rate: how often they waited under it.

ghost use Rattle.std.specs.Prelude.{◌≡◌, ◌<◌, ◌++◌, flat_map, OnOk};
ghost use Rattle.report_writing.specs.Gathered.{AreFew};
ghost use Rattle.report_writing.specs.ReservedTable.{frames_in, reserved_line, reserved_heading, reserved_lines};

use crate::tables::flows::{push_left_out, told_of};
use crate::tables::lives::push_kind;
use crate::text::{push_decimal_right, push_number, push_percent};
use sched_report::LifeNumbers;
use std::alloc::AllocError;

// The frames in the span of a life, where a frame has so many minislots.
fn frames_in(frame: u32, life: &LifeNumbers) -> u64
    requires { 0 < frame }
    ensures { result ≡ frames_in frame life.now }
{
    life.to.saturating_sub(life.from) / u64::from(frame)
}

// The line of a life.
#[tactic(auto, unfolding(crate::specs::ReservedTable::reserved_line))]
fn push_line(words: &mut Vec<u8>, frame: u32, life: &LifeNumbers) -> Result<(), AllocError>
    requires { 0 < frame }
    ensures { OnOk result (words.new.items ≡ words.old.items ++ reserved_line frame life.now) }
{
    let frames = u128::from(frames_in(frame, life));
    push_decimal_right(words, u64::from(life.sid), 3)?;
    push_kind(words, life.spec)?;
    push_number(words, u128::from(life.spec.reserved()), 8)?;
    push_number(words, u128::from(life.under), 8)?;
    push_percent(words, life.under, frames, 7)?;
    words.extend_from_slice(b"\n")
}

// The lines of these lives.
fn push_lines(words: &mut Vec<u8>, frame: u32, lives: &[LifeNumbers]) -> Result<(), AllocError>
    requires { 0 < frame }
    ensures { OnOk result (words.new.items
        ≡ words.old.items ++ flat_map (reserved_line frame) lives.now) }
{
    for life in lives {
        push_line(words, frame, life)?;
    }
    Ok(())
}

// What the columns are.
#[tactic(auto, unfolding(crate::specs::ReservedTable::reserved_heading))]
fn push_heading(words: &mut Vec<u8>) -> Result<(), AllocError>
    ensures { OnOk result (words.new.items ≡ words.old.items ++ reserved_heading) }
{
    words.extend_from_slice(
        b"\nflows with a minimum reserved rate: frames at whose start they waited under it\n",
    )?;
    words.extend_from_slice(b" SID kind   reserved   frames       %\n")
}

// The table of these lives, which stand in the order in which they are told: of all, or of the first few.
#[tactic(auto, unfolding(crate::specs::ReservedTable::reserved_lines))]
pub(crate) fn push_reserved(
    words: &mut Vec<u8>,
    frame: u32,
    lives: &[LifeNumbers],
    all: bool,
) -> Result<(), AllocError>
    requires frame { 0 < frame }
    requires few { AreFew lives.now }
    ensures { OnOk result (words.new.items
        ≡ words.old.items ++ reserved_lines frame all lives.now) }
{
    if lives.is_empty() {
        return Ok(());
    }
    push_heading(words)?;
    push_lines(words, frame, told_of(lives, all))?;
    push_left_out(words, all, lives.len())
}
