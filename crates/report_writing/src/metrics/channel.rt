//! The frames, the refusals and the use of minislots as metrics.

ghost use Rattle.std.specs.Prelude.{◌≡◌, ◌<◌, ◌++◌, length, OnOk};
ghost use Rattle.report_writing.specs.Metrics.{frames_metrics, reach_metrics, refusal_sample, refusals_metrics};
ghost use Rattle.report_writing.specs.Metrics.{use_sample, open_sample, use_samples, use_metrics};

use crate::metrics::sample::{
    Measure, Whose, push_count_line, push_count_sample, push_heading, push_time_line,
    push_time_sample,
};
use sched_report::{Slots, Totals};
use std::alloc::AllocError;

// How many frames there are, and how often some were left out.
#[tactic(auto, unfolding(crate::specs::Metrics::frames_metrics))]
pub(crate) fn push_frames(words: &mut Vec<u8>, totals: &Totals) -> Result<(), AllocError>
    ensures { OnOk result (words.new.items ≡ words.old.items ++ frames_metrics totals.now) }
{
    push_heading(
        words,
        b"mapsched_frames",
        b"counter",
        Measure::Pieces,
        b"MAPs that were built.",
    )?;
    push_count_line(words, b"mapsched_frames_total", totals.frames)?;
    push_heading(
        words,
        b"mapsched_skips",
        b"counter",
        Measure::Pieces,
        b"How often frames were left out.",
    )?;
    push_count_line(words, b"mapsched_skips_total", totals.skips)
}

// Where the frames start and end.
#[tactic(auto, unfolding(crate::specs::Metrics::reach_metrics))]
pub(crate) fn push_reach(words: &mut Vec<u8>, ticks: u32, totals: &Totals) -> Result<(), AllocError>
    ensures { OnOk result (words.new.items ≡ words.old.items ++ reach_metrics ticks totals.now) }
{
    push_heading(
        words,
        b"mapsched_first_frame_start_seconds",
        b"gauge",
        Measure::Seconds,
        b"Start of the first frame, from minislot 0 on.",
    )?;
    push_time_line(
        words,
        ticks,
        b"mapsched_first_frame_start_seconds",
        totals.from,
    )?;
    push_heading(
        words,
        b"mapsched_last_frame_end_seconds",
        b"gauge",
        Measure::Seconds,
        b"End of the last frame, from minislot 0 on.",
    )?;
    push_time_line(words, ticks, b"mapsched_last_frame_end_seconds", totals.to)
}

// The refusals with the number at a place, which are counted from 1.
#[tactic(auto, unfolding(crate::specs::Metrics::refusal_sample))]
fn push_refusal(words: &mut Vec<u8>, refused: &[u64], place: usize) -> Result<(), AllocError>
    requires { place < length refused.now }
    ensures { OnOk result (words.new.items ≡ words.old.items ++ refusal_sample refused.now place) }
{
    push_count_sample(
        words,
        b"mapsched_refusals_total",
        Whose::Refusal(place as u64 + 1),
        u128::from(refused[place]),
    )
}

// The refusals with each number.
#[tactic(auto, unfolding(crate::specs::Metrics::refusals_metrics))]
pub(crate) fn push_refusals(words: &mut Vec<u8>, refused: &[u64]) -> Result<(), AllocError>
    ensures { OnOk result (words.new.items ≡ words.old.items ++ refusals_metrics refused.now) }
{
    push_heading(
        words,
        b"mapsched_refusals",
        b"counter",
        Measure::Pieces,
        b"Refusals by number.",
    )?;
    for place in 0..refused.len() {
        push_refusal(words, refused, place)?;
    }
    Ok(())
}

// The time of the minislots of a use.
#[tactic(auto, unfolding(crate::specs::Metrics::use_sample, crate::specs::Samples::labels_of))]
fn push_use_sample(
    words: &mut Vec<u8>,
    ticks: u32,
    name: &'static [u8],
    minislots: u64,
) -> Result<(), AllocError>
    ensures { OnOk result (words.new.items
        ≡ words.old.items ++ use_sample ticks name.now minislots) }
{
    push_time_sample(
        words,
        ticks,
        b"mapsched_use_seconds_total",
        Whose::Use(name),
        minislots,
    )
}

// Of open idles, where idles are open.
fn push_open_sample(
    words: &mut Vec<u8>,
    ticks: u32,
    opens: bool,
    minislots: u64,
) -> Result<(), AllocError>
    ensures { OnOk result (words.new.items
        ≡ words.old.items ++ open_sample ticks opens minislots) }
{
    if !opens {
        return Ok(());
    }
    push_use_sample(words, ticks, b"open", minislots)
}

// Of all uses.
#[tactic(auto, unfolding(crate::specs::Metrics::use_samples))]
fn push_uses(words: &mut Vec<u8>, ticks: u32, opens: bool, slots: &Slots) -> Result<(), AllocError>
    ensures { OnOk result (words.new.items
        ≡ words.old.items ++ use_samples ticks opens slots.now) }
{
    push_use_sample(words, ticks, b"data", slots.data_grants)?;
    push_use_sample(words, ticks, b"idle", slots.idle)?;
    push_open_sample(words, ticks, opens, slots.open_idle)?;
    push_use_sample(words, ticks, b"opportunity", slots.opportunity)?;
    push_use_sample(words, ticks, b"poll", slots.poll)?;
    push_use_sample(words, ticks, b"request", slots.request)?;
    push_use_sample(words, ticks, b"unsolicited", slots.unsolicited)
}

// The minislots of all frames by their use.
#[tactic(auto, unfolding(crate::specs::Metrics::use_metrics))]
pub(crate) fn push_use(
    words: &mut Vec<u8>,
    ticks: u32,
    opens: bool,
    slots: &Slots,
) -> Result<(), AllocError>
    ensures { OnOk result (words.new.items
        ≡ words.old.items ++ use_metrics ticks opens slots.now) }
{
    push_heading(
        words,
        b"mapsched_use_seconds",
        b"counter",
        Measure::Seconds,
        b"Time of the minislots of all frames by use.",
    )?;
    push_uses(words, ticks, opens, slots)
}
