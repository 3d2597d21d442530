//! The objects of a report's JSON: a rank, the refusals, the calls and the use of minislots.

ghost use Rattle.std.specs.Prelude.{◌≡◌, ◌++◌, OnOk, slice_index};
ghost use Rattle.serde_json.specs.Data.{Members};
ghost use Rattle.history_writing.specs.Tokens.{tokens_of};
ghost use Rattle.report_writing.specs.Cells.{cell_data, tokens_to_end};
ghost use Rattle.report_writing.specs.Report.{rank_name, rank_data, calls_data, use_data, refused_data, with_refusals};
ghost use Rattle.report_writing.specs.Report.{told_if, told_above_0};

use crate::cell::{Cell, Spread, put_cell, put_object};
use itoa::Buffer;
use json::Writer;
use sched_report::{Calls, POLLED, RankTold, Slots};
use std::alloc::AllocError;

static RANK: [&str; 8] = [
    "asks", "delay", "dropped", "granted", "rank", "replaced", "served", "waiting",
];

static CALLS: [&str; 13] = [
    "admit", "ask", "build", "change", "header", "heard", "remove", "replace", "reserve", "rest",
    "skip", "status", "wake",
];

static USES: [&str; 7] = [
    "data",
    "idle",
    "open",
    "opportunity",
    "poll",
    "request",
    "unsolicited",
];

// The places of the refusals' numbers, which are counted from 1, in the ascending order of their texts.
const BY_TEXT: [u8; 23] = [
    0, 9, 10, 11, 12, 13, 14, 15, 16, 17, 18, 1, 19, 20, 21, 22, 2, 3, 4, 5, 6, 7, 8,
];

// A number that is told in some reports alone.
pub(crate) fn told_if(told: bool, number: u128) -> Option<u128>
    ensures { result ≡ told_if told number }
{
    if told { Some(number) } else { None }
}

// A number that is told where it is not 0.
pub(crate) fn told_above_0(number: u64) -> Option<u128>
    ensures { result ≡ told_above_0 number }
{
    told_if(number > 0, number as u128)
}

// The name or the number of a rank.
fn rank_cell(rank: u8) -> Cell
    ensures { cell_data result ≡ rank_name rank }
{
    if rank == POLLED {
        Cell::Name("polled")
    } else {
        Cell::Count(rank as u128)
    }
}

// Writes the numbers of a rank, with its replaced requests or without.
#[tactic(auto, unfolding(crate::specs::Report::rank_data))]
pub(crate) fn put_rank(out: &mut Writer, told: &RankTold, replaced: bool) -> Result<(), AllocError>
    ensures ok { OnOk result (out.new.tokens
        ≡ out.old.tokens ++ tokens_of (rank_data replaced told.now)) }
    ensures before { out.new.before ≡ out.old.before }
{
    let sums = told.numbers.sums;
    let spread = Spread {
        greatest: sums.greatest,
        least: sums.least,
        middle: told.numbers.middle,
        p99: told.numbers.p99,
    };
    let cells = [
        Cell::Count(sums.asks),
        Cell::Delay(spread),
        Cell::Count(sums.dropped),
        Cell::Count(sums.granted),
        rank_cell(told.rank),
        Cell::Given(told_if(replaced, sums.replaced)),
        Cell::Count(sums.served),
        Cell::Count(sums.waiting),
    ];
    put_object(out, &RANK, &cells)
}

// Writes how many calls of each kind there were, of four kinds where there were any.
#[tactic(auto, unfolding(crate::specs::Report::calls_data))]
pub(crate) fn put_calls(out: &mut Writer, calls: &Calls) -> Result<(), AllocError>
    ensures ok { OnOk result (out.new.tokens ≡ out.old.tokens ++ tokens_of (calls_data calls.now)) }
    ensures before { out.new.before ≡ out.old.before }
{
    let cells = [
        Cell::Count(calls.admit as u128),
        Cell::Count(calls.ask as u128),
        Cell::Count(calls.build as u128),
        Cell::Given(told_above_0(calls.change)),
        Cell::Count(calls.header as u128),
        Cell::Count(calls.heard as u128),
        Cell::Count(calls.remove as u128),
        Cell::Given(told_above_0(calls.replace)),
        Cell::Count(calls.reserve as u128),
        Cell::Given(told_above_0(calls.rest)),
        Cell::Count(calls.skip as u128),
        Cell::Count(calls.status as u128),
        Cell::Given(told_above_0(calls.wake)),
    ];
    put_object(out, &CALLS, &cells)
}

// Writes the minislots by their use, with those of open idles or without.
#[tactic(auto, unfolding(crate::specs::Report::use_data))]
pub(crate) fn put_use(out: &mut Writer, slots: &Slots, opens: bool) -> Result<(), AllocError>
    ensures ok { OnOk result (out.new.tokens ≡ out.old.tokens ++ tokens_of (use_data opens slots.now)) }
    ensures before { out.new.before ≡ out.old.before }
{
    let cells = [
        Cell::Count(slots.data_grants as u128),
        Cell::Count(slots.idle as u128),
        Cell::Given(told_if(opens, slots.open_idle as u128)),
        Cell::Count(slots.opportunity as u128),
        Cell::Count(slots.poll as u128),
        Cell::Count(slots.request as u128),
        Cell::Count(slots.unsolicited as u128),
    ];
    put_object(out, &USES, &cells)
}

// How many refusals there were with the number at a place.
fn refusals_at(refused: &[u64], place: u8) -> u64
    ensures { result ≡ slice_index refused.now place }
{
    match refused.get(usize::from(place)) {
        Some(count) => *count,
        None => 0,
    }
}

// Writes how many refusals there were with the number at a place, where there was one. Other members may follow.
fn put_refusals(out: &mut Writer, place: u8, count: u64) -> Result<(), AllocError>
    ensures ok { OnOk result ((others : Members) → out.new.tokens ++ tokens_to_end others
        ≡ out.old.tokens ++ tokens_to_end (with_refusals place count others)) }
    ensures before { out.new.before ≡ out.old.before }
{
    if count == 0 {
        return Ok(());
    }
    let mut buffer = Buffer::new();
    out.key(buffer.format(place as u64 + 1))?;
    out.u64(count)
}

// Writes how many refusals with each number there were, where there was one.
pub(crate) fn put_refused(out: &mut Writer, refused: &[u64]) -> Result<(), AllocError>
    ensures ok { OnOk result (out.new.tokens
        ≡ out.old.tokens ++ tokens_of (refused_data refused.now)) }
    ensures before { out.new.before ≡ out.old.before }
{
    out.begin_object()?;
    for index in 0..BY_TEXT.len() {
        let place = BY_TEXT[index];
        put_refusals(out, place, refusals_at(refused, place))?;
    }
    out.end_object()
}
