//! The frames, what their minislots were for, and the calls.

ghost use Rattle.std.specs.Prelude.{◌≡◌, ◌<◌, ◌^◌, ◌++◌, OnOk};
ghost use Rattle.sched_report.specs.Uses.{all_slots};
ghost use Rattle.report_writing.specs.Tables.{reach_text, time_text, no_frames_text, head_text, use_cells, call_cells};
ghost use Rattle.report_writing.specs.Tables.{use_line, call_line, first_uses, last_uses, last_calls, uses_text};
ghost use Rattle.report_writing.specs.Tables.{reserve_line, call_line_above_0, flow_calls};

use crate::text::{
    microseconds, push_decimal, push_left, push_number, push_percent, push_spaces, push_time,
};
use sched_report::{Calls, Slots, Totals};
use std::alloc::AllocError;

// How many frames there are, and from where to where they reach.
#[tactic(auto, unfolding(crate::specs::Tables::reach_text))]
fn push_reach(words: &mut Vec<u8>, frames: u64, from: u64, to: u64) -> Result<(), AllocError>
    ensures { OnOk result (words.new.items ≡ words.old.items ++ reach_text frames from to) }
{
    push_decimal(words, frames)?;
    words.extend_from_slice(b" frames, minislots ")?;
    push_decimal(words, from)?;
    words.extend_from_slice(b" to ")?;
    push_decimal(words, to)
}

// So many microseconds, and how often frames were left out.
#[tactic(auto, unfolding(crate::specs::Tables::time_text))]
fn push_span(words: &mut Vec<u8>, microseconds: u128, skips: u64) -> Result<(), AllocError>
    ensures { OnOk result (words.new.items ≡ words.old.items ++ time_text microseconds skips) }
{
    words.extend_from_slice(b", ")?;
    push_time(words, microseconds)?;
    words.extend_from_slice(b" ms, ")?;
    push_decimal(words, skips)?;
    words.extend_from_slice(b" skips\n")
}

// How often frames were left out, where there is none.
#[tactic(auto, unfolding(crate::specs::Tables::no_frames_text))]
fn push_no_frames(words: &mut Vec<u8>, skips: u64) -> Result<(), AllocError>
    ensures { OnOk result (words.new.items ≡ words.old.items ++ no_frames_text skips) }
{
    words.extend_from_slice(b"no frames, ")?;
    push_decimal(words, skips)?;
    words.extend_from_slice(b" skips\n")
}

// The first line: the frames and their time.
#[tactic(auto, unfolding(crate::specs::Tables::head_text))]
pub(crate) fn push_head(words: &mut Vec<u8>, ticks: u32, totals: &Totals) -> Result<(), AllocError>
    ensures { OnOk result (words.new.items ≡ words.old.items ++ head_text ticks totals.now) }
{
    let (Some(from), Some(to)) = (totals.from, totals.to) else {
        return push_no_frames(words, totals.skips);
    };
    push_reach(words, totals.frames, from, to)?;
    push_span(
        words,
        microseconds(ticks, to.saturating_sub(from)),
        totals.skips,
    )
}

// A use of minislots, and the part of all that they are.
#[tactic(auto, unfolding(crate::specs::Tables::use_cells))]
fn push_use(words: &mut Vec<u8>, name: &[u8], minislots: u64, all: u128) -> Result<(), AllocError>
    requires { all < 2 ^ 100 }
    ensures { OnOk result (words.new.items ≡ words.old.items ++ use_cells name.now minislots all) }
{
    push_left(words, name, 11)?;
    push_number(words, u128::from(minislots), 14)?;
    push_percent(words, minislots, all, 7)
}

// A kind of call, and how many there were.
#[tactic(auto, unfolding(crate::specs::Tables::call_cells))]
fn push_call(words: &mut Vec<u8>, name: &[u8], count: u64) -> Result<(), AllocError>
    ensures { OnOk result (words.new.items ≡ words.old.items ++ call_cells name.now count) }
{
    push_spaces(words, 8)?;
    push_left(words, name, 7)?;
    push_number(words, u128::from(count), 11)?;
    words.extend_from_slice(b"\n")
}

// A line of both.
#[tactic(auto, unfolding(crate::specs::Tables::use_line))]
fn push_line(
    words: &mut Vec<u8>,
    name: &[u8],
    minislots: u64,
    all: u128,
    call: &[u8],
    count: u64,
) -> Result<(), AllocError>
    requires { all < 2 ^ 100 }
    ensures { OnOk result (words.new.items
        ≡ words.old.items ++ use_line name.now minislots all call.now count) }
{
    push_use(words, name, minislots, all)?;
    push_call(words, call, count)
}

// A line of a call alone.
#[tactic(auto, unfolding(crate::specs::Tables::call_line))]
fn push_call_alone(words: &mut Vec<u8>, name: &[u8], count: u64) -> Result<(), AllocError>
    ensures { OnOk result (words.new.items ≡ words.old.items ++ call_line name.now count) }
{
    push_spaces(words, 34)?;
    push_call(words, name, count)
}

// The minislots of all uses.
fn all_of(slots: &Slots) -> u128
    ensures all { result ≡ all_slots slots.now }
    ensures small { result < 2 ^ 100 }
{
    u128::from(slots.request)
        + u128::from(slots.poll)
        + u128::from(slots.unsolicited)
        + u128::from(slots.opportunity)
        + u128::from(slots.data_grants)
        + u128::from(slots.open_idle)
        + u128::from(slots.idle)
}

// Minislots in which modems may ask and of unsolicited grants, and calls about flows.
#[tactic(auto, unfolding(crate::specs::Tables::first_uses))]
fn push_first_uses(
    words: &mut Vec<u8>,
    slots: &Slots,
    all: u128,
    calls: &Calls,
) -> Result<(), AllocError>
    requires { all < 2 ^ 100 }
    ensures { OnOk result (words.new.items ≡ words.old.items ++ first_uses slots.now all calls.now) }
{
    push_line(words, b"request", slots.request, all, b"admit", calls.admit)?;
    push_line(words, b"poll", slots.poll, all, b"remove", calls.remove)?;
    push_line(
        words,
        b"unsolicited",
        slots.unsolicited,
        all,
        b"ask",
        calls.ask,
    )
}

// The other minislots, and calls about frames.
#[tactic(auto, unfolding(crate::specs::Tables::last_uses))]
fn push_last_uses(
    words: &mut Vec<u8>,
    slots: &Slots,
    all: u128,
    calls: &Calls,
) -> Result<(), AllocError>
    requires { all < 2 ^ 100 }
    ensures { OnOk result (words.new.items ≡ words.old.items ++ last_uses slots.now all calls.now) }
{
    push_line(
        words,
        b"opportunity",
        slots.opportunity,
        all,
        b"heard",
        calls.heard,
    )?;
    push_line(
        words,
        b"data",
        slots.data_grants,
        all,
        b"build",
        calls.build,
    )?;
    push_line(words, b"idle", slots.idle, all, b"skip", calls.skip)
}

// The call beside which open idles are told, where idles are open.
fn push_reserve_line(
    words: &mut Vec<u8>,
    opens: bool,
    slots: &Slots,
    all: u128,
    calls: &Calls,
) -> Result<(), AllocError>
    requires { all < 2 ^ 100 }
    ensures { OnOk result (words.new.items
        ≡ words.old.items ++ reserve_line opens slots.now all calls.now) }
{
    if opens {
        push_line(
            words,
            b"open",
            slots.open_idle,
            all,
            b"reserve",
            calls.reserve,
        )
    } else {
        push_call_alone(words, b"reserve", calls.reserve)
    }
}

// The other calls.
#[tactic(auto, unfolding(crate::specs::Tables::last_calls))]
fn push_last_calls(
    words: &mut Vec<u8>,
    opens: bool,
    slots: &Slots,
    all: u128,
    calls: &Calls,
) -> Result<(), AllocError>
    requires { all < 2 ^ 100 }
    ensures { OnOk result (words.new.items
        ≡ words.old.items ++ last_calls opens slots.now all calls.now) }
{
    push_reserve_line(words, opens, slots, all, calls)?;
    push_call_alone(words, b"header", calls.header)?;
    push_call_alone(words, b"status", calls.status)
}

// How many calls of a kind there were, where there were any.
fn push_call_above_0(words: &mut Vec<u8>, name: &[u8], count: u64) -> Result<(), AllocError>
    ensures { OnOk result (words.new.items
        ≡ words.old.items ++ call_line_above_0 name.now count) }
{
    if count == 0 {
        return Ok(());
    }
    push_call_alone(words, name, count)
}

// The calls that change what flows have or wait for.
#[tactic(auto, unfolding(crate::specs::Tables::flow_calls))]
fn push_flow_calls(words: &mut Vec<u8>, calls: &Calls) -> Result<(), AllocError>
    ensures { OnOk result (words.new.items ≡ words.old.items ++ flow_calls calls.now) }
{
    push_call_above_0(words, b"replace", calls.replace)?;
    push_call_above_0(words, b"change", calls.change)?;
    push_call_above_0(words, b"rest", calls.rest)?;
    push_call_above_0(words, b"wake", calls.wake)
}

// The use of minislots, with open idles or without, and beside it the calls.
#[tactic(auto, unfolding(crate::specs::Tables::uses_text))]
pub(crate) fn push_uses(
    words: &mut Vec<u8>,
    opens: bool,
    slots: &Slots,
    calls: &Calls,
) -> Result<(), AllocError>
    ensures { OnOk result (words.new.items
        ≡ words.old.items ++ uses_text opens slots.now calls.now) }
{
    let all = all_of(slots);
    words.extend_from_slice(b"\nuse              minislots       %        calls\n")?;
    push_first_uses(words, slots, all, calls)?;
    push_last_uses(words, slots, all, calls)?;
    push_last_calls(words, opens, slots, all, calls)?;
    push_flow_calls(words, calls)
}
