//! What is least or greatest among the MAPs as metrics, and how many Reserves lapsed.

ghost use Rattle.std.specs.Prelude.{◌≡◌, ◌≤◌, ◌<◌, ◌++◌, length, OnOk};
ghost use Rattle.report_writing.specs.ExtremeMetrics.{most_metrics, least_metrics, lag_sample, lagging};
ghost use Rattle.report_writing.specs.ExtremeMetrics.{lags_metrics, extremes_metrics};

use crate::metrics::sample::{
    Measure, Whose, push_count_line, push_count_line_or_none, push_heading, push_time_line,
    push_time_sample,
};
use sched_report::Extremes;
use std::alloc::AllocError;

// The elements of the fullest MAP, and how many Reserves lapsed.
#[tactic(auto, unfolding(crate::specs::ExtremeMetrics::most_metrics))]
fn push_most(words: &mut Vec<u8>, extremes: &Extremes) -> Result<(), AllocError>
    ensures { OnOk result (words.new.items ≡ words.old.items ++ most_metrics extremes.now) }
{
    push_heading(
        words,
        b"mapsched_most_elements",
        b"gauge",
        Measure::Pieces,
        b"Elements of the fullest MAP, with its Null and the pending grants behind it.",
    )?;
    push_count_line(words, b"mapsched_most_elements", extremes.elements)?;
    push_heading(
        words,
        b"mapsched_lapsed_reserves",
        b"counter",
        Measure::Pieces,
        b"Reserves that lapsed.",
    )?;
    push_count_line(words, b"mapsched_lapsed_reserves_total", extremes.lapsed)
}

// The least margin of a build, and the least of the largest gaps of the frames.
#[tactic(auto, unfolding(crate::specs::ExtremeMetrics::least_metrics))]
fn push_least(words: &mut Vec<u8>, ticks: u32, extremes: &Extremes) -> Result<(), AllocError>
    ensures { OnOk result (words.new.items ≡ words.old.items ++ least_metrics ticks extremes.now) }
{
    push_heading(
        words,
        b"mapsched_least_margin_seconds",
        b"gauge",
        Measure::Seconds,
        b"Least time from the clock of a build to the start of its MAP.",
    )?;
    push_time_line(
        words,
        ticks,
        b"mapsched_least_margin_seconds",
        extremes.margin,
    )?;
    push_heading(
        words,
        b"mapsched_least_free_minislots",
        b"gauge",
        Measure::Pieces,
        b"Most minislots in a row that each frame had for data or left idle.",
    )?;
    push_count_line_or_none(words, b"mapsched_least_free_minislots", extremes.gap)
}

// The greatest lag of the receiver with a number.
#[tactic(auto, unfolding(crate::specs::ExtremeMetrics::lag_sample))]
fn push_lag(
    words: &mut Vec<u8>,
    ticks: u32,
    lags: &[u64],
    receiver: usize,
) -> Result<(), AllocError>
    requires { receiver < length lags.now }
    ensures { OnOk result (words.new.items ≡ words.old.items ++ lag_sample ticks lags.now receiver) }
{
    push_time_sample(
        words,
        ticks,
        b"mapsched_receiver_most_lag_seconds",
        Whose::Receiver(receiver as u64),
        lags[receiver],
    )
}

// How many of so many receivers have a lag: all of them where there is a margin, and so a MAP.
fn lagging(margin: Option<u64>, receivers: u8) -> usize
    ensures value { result ≡ lagging margin receivers }
    ensures most { result ≤ receivers }
{
    match margin {
        Some(_) => usize::from(receivers),
        None => 0,
    }
}

// The greatest lags of all receivers, of which there are so many.
#[tactic(auto, unfolding(crate::specs::ExtremeMetrics::lags_metrics))]
fn push_lags(
    words: &mut Vec<u8>,
    ticks: u32,
    receivers: u8,
    extremes: &Extremes,
) -> Result<(), AllocError>
    requires { receivers ≤ length extremes.now.lags }
    ensures { OnOk result (words.new.items ≡ words.old.items ++ lags_metrics ticks receivers extremes.now) }
{
    push_heading(
        words,
        b"mapsched_receiver_most_lag_seconds",
        b"gauge",
        Measure::Seconds,
        b"Most time from what a receiver had handed in to the start of a MAP.",
    )?;
    for receiver in 0..lagging(extremes.margin, receivers) {
        push_lag(words, ticks, &extremes.lags, receiver)?;
    }
    Ok(())
}

// All of these.
#[tactic(auto, unfolding(crate::specs::ExtremeMetrics::extremes_metrics))]
pub(crate) fn push_extremes(
    words: &mut Vec<u8>,
    ticks: u32,
    receivers: u8,
    extremes: &Extremes,
) -> Result<(), AllocError>
    requires { receivers ≤ length extremes.now.lags }
    ensures { OnOk result (words.new.items
        ≡ words.old.items ++ extremes_metrics ticks receivers extremes.now) }
{
    push_most(words, extremes)?;
    push_least(words, ticks, extremes)?;
    push_lags(words, ticks, receivers, extremes)
}
