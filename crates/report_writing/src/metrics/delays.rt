//! How the delays of requests are spread, in seconds.

ghost use Rattle.std.specs.Prelude.{◌≡◌, ◌++◌, OnOk};
ghost use Rattle.report_writing.specs.Samples.{labels_of, sample_front, quantile_labels};
ghost use Rattle.report_writing.specs.Samples.{quantile_sample, spread_samples, delay_samples};

use crate::cell::Spread;
use crate::metrics::sample::{Whose, push_label, push_labels, push_seconds};
use std::alloc::AllocError;

// Which delays a sample tells of.
#[derive(Clone, Copy)]
pub(crate) struct Delays {
    // How many ticks a minislot has.
    pub(crate) ticks: u32,
    // The name of their family.
    pub(crate) name: &'static [u8],
    pub(crate) whose: Whose,
}

// The labels of a delay that some part of all delays do not exceed.
#[tactic(auto, unfolding(crate::specs::Samples::quantile_labels))]
fn push_quantile_labels(words: &mut Vec<u8>, whose: Whose, part: &[u8]) -> Result<(), AllocError>
    ensures { OnOk result (words.new.items
        ≡ words.old.items ++ quantile_labels (labels_of whose) part.now) }
{
    push_labels(words, whose)?;
    words.extend_from_slice(b",")?;
    push_label(words, b"quantile", part)
}

// What stands before it.
#[tactic(auto, unfolding(crate::specs::Samples::sample_front))]
fn push_front(words: &mut Vec<u8>, delays: Delays, part: &[u8]) -> Result<(), AllocError>
    ensures { OnOk result (words.new.items ≡ words.old.items ++ sample_front
        delays.name.now (quantile_labels (labels_of delays.whose) part.now)) }
{
    words.extend_from_slice(delays.name)?;
    words.extend_from_slice(b"{")?;
    push_quantile_labels(words, delays.whose, part)?;
    words.extend_from_slice(b"} ")
}

// That delay.
#[tactic(auto, unfolding(crate::specs::Samples::quantile_sample))]
fn push_quantile(
    words: &mut Vec<u8>,
    delays: Delays,
    part: &[u8],
    minislots: u64,
) -> Result<(), AllocError>
    ensures { OnOk result (words.new.items ≡ words.old.items ++ quantile_sample
        delays.ticks delays.name.now (labels_of delays.whose) part.now minislots) }
{
    push_front(words, delays, part)?;
    push_seconds(words, delays.ticks, minislots)?;
    words.extend_from_slice(b"\n")
}

// The least delay, the middle, that of 99 in a hundred, and the greatest.
#[tactic(auto, unfolding(crate::specs::Samples::spread_samples))]
fn push_spread(
    words: &mut Vec<u8>,
    delays: Delays,
    greatest: u64,
    least: u64,
    middle: u64,
    p99: u64,
) -> Result<(), AllocError>
    ensures { OnOk result (words.new.items ≡ words.old.items ++ spread_samples
        delays.ticks delays.name.now (labels_of delays.whose) greatest least middle p99) }
{
    push_quantile(words, delays, b"0.0", least)?;
    push_quantile(words, delays, b"0.5", middle)?;
    push_quantile(words, delays, b"0.99", p99)?;
    push_quantile(words, delays, b"1.0", greatest)
}

// How delays are spread, where there are any.
pub(crate) fn push_delays(
    words: &mut Vec<u8>,
    delays: Delays,
    spread: Spread,
) -> Result<(), AllocError>
    ensures { OnOk result (words.new.items ≡ words.old.items ++ delay_samples delays.ticks
        delays.name.now (labels_of delays.whose)
        spread.greatest spread.least spread.middle spread.p99) }
{
    match (spread.greatest, spread.least, spread.middle, spread.p99) {
        (Some(greatest), Some(least), Some(middle), Some(p99)) => {
            push_spread(words, delays, greatest, least, middle, p99)
        }
        _ => Ok(()),
    }
}
