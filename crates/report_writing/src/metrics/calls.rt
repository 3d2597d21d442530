//! The calls by their names as metrics.

ghost use Rattle.std.specs.Prelude.{◌≡◌, ◌++◌, OnOk};
ghost use Rattle.report_writing.specs.Metrics.{call_sample, first_call_samples, middle_call_samples};
ghost use Rattle.report_writing.specs.Metrics.{last_call_samples, calls_metrics};

use crate::metrics::sample::{Measure, Whose, push_count_sample, push_heading};
use sched_report::Calls;
use std::alloc::AllocError;

// So many calls of a name.
#[tactic(auto, unfolding(crate::specs::Metrics::call_sample, crate::specs::Samples::labels_of))]
fn push_call(words: &mut Vec<u8>, name: &'static [u8], count: u64) -> Result<(), AllocError>
    ensures { OnOk result (words.new.items ≡ words.old.items ++ call_sample name.now count) }
{
    push_count_sample(
        words,
        b"mapsched_calls_total",
        Whose::Call(name),
        u128::from(count),
    )
}

// Calls in the order of their names: the first of them.
#[tactic(auto, unfolding(crate::specs::Metrics::first_call_samples))]
fn push_first_calls(words: &mut Vec<u8>, calls: &Calls) -> Result<(), AllocError>
    ensures { OnOk result (words.new.items ≡ words.old.items ++ first_call_samples calls.now) }
{
    push_call(words, b"admit", calls.admit)?;
    push_call(words, b"ask", calls.ask)?;
    push_call(words, b"build", calls.build)?;
    push_call(words, b"change", calls.change)
}

// Those behind them.
#[tactic(auto, unfolding(crate::specs::Metrics::middle_call_samples))]
fn push_middle_calls(words: &mut Vec<u8>, calls: &Calls) -> Result<(), AllocError>
    ensures { OnOk result (words.new.items ≡ words.old.items ++ middle_call_samples calls.now) }
{
    push_call(words, b"header", calls.header)?;
    push_call(words, b"heard", calls.heard)?;
    push_call(words, b"remove", calls.remove)?;
    push_call(words, b"replace", calls.replace)
}

// And the others.
#[tactic(auto, unfolding(crate::specs::Metrics::last_call_samples))]
fn push_last_calls(words: &mut Vec<u8>, calls: &Calls) -> Result<(), AllocError>
    ensures { OnOk result (words.new.items ≡ words.old.items ++ last_call_samples calls.now) }
{
    push_call(words, b"reserve", calls.reserve)?;
    push_call(words, b"rest", calls.rest)?;
    push_call(words, b"skip", calls.skip)?;
    push_call(words, b"status", calls.status)?;
    push_call(words, b"wake", calls.wake)
}

// The calls of each name.
#[tactic(auto, unfolding(crate::specs::Metrics::calls_metrics))]
pub(crate) fn push_calls(words: &mut Vec<u8>, calls: &Calls) -> Result<(), AllocError>
    ensures { OnOk result (words.new.items ≡ words.old.items ++ calls_metrics calls.now) }
{
    push_heading(
        words,
        b"mapsched_calls",
        b"counter",
        Measure::Pieces,
        b"Calls by name, refused ones among them.",
    )?;
    push_first_calls(words, calls)?;
    push_middle_calls(words, calls)?;
    push_last_calls(words, calls)
}
