//! The requests by the rank in which they were served.

ghost use Rattle.std.specs.Prelude.{◌≡◌, ◌++◌, flat_map, OnOk};
ghost use Rattle.report_writing.specs.Tables.{rank_title, replaced_column, rank_counts, rank_delays, rank_line};
ghost use Rattle.report_writing.specs.Tables.{ranks_heading, ranks_table, ranks_text};

use crate::text::{narrower, push_decimal, push_ms, push_number};
use sched_report::{POLLED, RankTold};
use std::alloc::AllocError;

// The name of a rank, in six columns.
#[tactic(auto, unfolding(crate::specs::Tables::rank_title))]
fn push_title(words: &mut Vec<u8>, rank: u8) -> Result<(), AllocError>
    ensures { OnOk result (words.new.items ≡ words.old.items ++ rank_title rank) }
{
    if rank == POLLED {
        return words.extend_from_slice(b"polled");
    }
    words.extend_from_slice(b"best ")?;
    push_decimal(words, u64::from(rank))
}

// How many requests were replaced, in a report that tells it.
pub(crate) fn push_replaced(
    words: &mut Vec<u8>,
    replaced: bool,
    number: u128,
) -> Result<(), AllocError>
    ensures { OnOk result (words.new.items ≡ words.old.items ++ replaced_column replaced number) }
{
    if replaced {
        push_number(words, number, 4)
    } else {
        Ok(())
    }
}

// The bytes that a rank was granted, and its requests.
#[tactic(auto, unfolding(crate::specs::Tables::rank_counts))]
fn push_counts(words: &mut Vec<u8>, replaced: bool, told: &RankTold) -> Result<(), AllocError>
    ensures { OnOk result (words.new.items ≡ words.old.items ++ rank_counts replaced told.now) }
{
    let sums = told.numbers.sums;
    push_number(words, sums.granted, 9)?;
    push_number(words, sums.asks, narrower(replaced, 7))?;
    push_number(words, sums.served, narrower(replaced, 7))?;
    push_number(words, sums.waiting, narrower(replaced, 5))?;
    push_number(words, sums.dropped, narrower(replaced, 5))?;
    push_replaced(words, replaced, sums.replaced)
}

// The delays of those that were served.
#[tactic(auto, unfolding(crate::specs::Tables::rank_delays))]
fn push_delays(words: &mut Vec<u8>, ticks: u32, told: &RankTold) -> Result<(), AllocError>
    ensures { OnOk result (words.new.items ≡ words.old.items ++ rank_delays ticks told.now) }
{
    let sums = told.numbers.sums;
    push_ms(words, ticks, sums.least, 7)?;
    push_ms(words, ticks, told.numbers.middle, 7)?;
    push_ms(words, ticks, told.numbers.p99, 7)?;
    push_ms(words, ticks, sums.greatest, 7)
}

// The line of a rank.
#[tactic(auto, unfolding(crate::specs::Tables::rank_line))]
fn push_rank(
    words: &mut Vec<u8>,
    ticks: u32,
    replaced: bool,
    told: &RankTold,
) -> Result<(), AllocError>
    ensures { OnOk result (words.new.items ≡ words.old.items ++ rank_line ticks replaced told.now) }
{
    push_title(words, told.rank)?;
    push_counts(words, replaced, told)?;
    push_delays(words, ticks, told)?;
    words.extend_from_slice(b"\n")
}

// The lines of these ranks.
fn push_lines(
    words: &mut Vec<u8>,
    ticks: u32,
    replaced: bool,
    ranks: &[RankTold],
) -> Result<(), AllocError>
    ensures { OnOk result (words.new.items
        ≡ words.old.items ++ flat_map (rank_line ticks replaced) ranks.now) }
{
    for told in ranks {
        push_rank(words, ticks, replaced, told)?;
    }
    Ok(())
}

// What the columns are.
#[tactic(auto, unfolding(crate::specs::Tables::ranks_heading))]
fn push_heading(words: &mut Vec<u8>, replaced: bool) -> Result<(), AllocError>
    ensures { OnOk result (words.new.items ≡ words.old.items ++ ranks_heading replaced) }
{
    if replaced {
        words.extend_from_slice(
            b"\nrank       bytes   asks served wait drop repl   least  middle     p99    most ms\n",
        )
    } else {
        words.extend_from_slice(
            b"\nrank       bytes    asks  served  wait  drop   least  middle     p99    most ms\n",
        )
    }
}

// The table of these ranks.
#[tactic(auto, unfolding(crate::specs::Tables::ranks_table))]
fn push_table(
    words: &mut Vec<u8>,
    ticks: u32,
    replaced: bool,
    ranks: &[RankTold],
) -> Result<(), AllocError>
    ensures { OnOk result (words.new.items
        ≡ words.old.items ++ ranks_table ticks replaced ranks.now) }
{
    push_heading(words, replaced)?;
    push_lines(words, ticks, replaced, ranks)
}

// The ranks that asked, from the one that is served first on.
#[tactic(auto, unfolding(crate::specs::Tables::ranks_text))]
pub(crate) fn push_ranks(
    words: &mut Vec<u8>,
    ticks: u32,
    replaced: bool,
    ranks: &[RankTold],
) -> Result<(), AllocError>
    ensures { OnOk result (words.new.items ≡ words.old.items ++ ranks_text ticks replaced ranks.now) }
{
    if ranks.is_empty() {
        return Ok(());
    }
    push_table(words, ticks, replaced, ranks)
}
