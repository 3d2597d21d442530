//! The metrics of each life of a flow.

ghost use Rattle.std.specs.Prelude.{◌≡◌, ◌++◌, OnOk};
ghost use Rattle.report_writing.specs.LifeMetrics.{lives_samples, life_span_metrics, life_byte_metrics};
ghost use Rattle.report_writing.specs.LifeMetrics.{life_request_metrics, life_lost_metrics, life_delay_metrics};
ghost use Rattle.report_writing.specs.LifeMetrics.{life_oldest_metrics, life_under_metrics, life_held_metrics};
ghost use Rattle.report_writing.specs.LifeMetrics.{lives_metrics};

use crate::held::is_any_held;
use crate::metrics::life::{LifeCount, LifeMetric, push_life};
use crate::metrics::sample::{Measure, push_heading};
use crate::reserved::is_any_reserved;
use sched_report::LifeNumbers;
use std::alloc::AllocError;

// The samples of a metric of all lives, in the order of their admissions.
fn push_samples(
    words: &mut Vec<u8>,
    ticks: u32,
    metric: LifeMetric,
    lives: &[LifeNumbers],
) -> Result<(), AllocError>
    ensures { OnOk result (words.new.items
        ≡ words.old.items ++ lives_samples ticks metric lives.now) }
{
    for place in 0..lives.len() {
        push_life(words, ticks, metric, place as u64, &lives[place])?;
    }
    Ok(())
}

// Which flows lived, and when.
#[tactic(auto, unfolding(crate::specs::LifeMetrics::life_span_metrics))]
fn push_spans(words: &mut Vec<u8>, ticks: u32, lives: &[LifeNumbers]) -> Result<(), AllocError>
    ensures { OnOk result (words.new.items
        ≡ words.old.items ++ life_span_metrics ticks lives.now) }
{
    push_heading(
        words,
        b"mapsched_flow",
        b"info",
        Measure::Pieces,
        b"A life of a flow, and its rank where it has one.",
    )?;
    push_samples(words, ticks, LifeMetric::Info, lives)?;
    push_heading(
        words,
        b"mapsched_flow_start_seconds",
        b"gauge",
        Measure::Seconds,
        b"Start of the next frame at the admission, from minislot 0 on.",
    )?;
    push_samples(words, ticks, LifeMetric::Start, lives)?;
    push_heading(
        words,
        b"mapsched_flow_end_seconds",
        b"gauge",
        Measure::Seconds,
        b"Start of the next frame at the removal, or now, from minislot 0 on.",
    )?;
    push_samples(words, ticks, LifeMetric::End, lives)
}

// Their bytes.
#[tactic(auto, unfolding(crate::specs::LifeMetrics::life_byte_metrics))]
fn push_bytes(words: &mut Vec<u8>, ticks: u32, lives: &[LifeNumbers]) -> Result<(), AllocError>
    ensures { OnOk result (words.new.items
        ≡ words.old.items ++ life_byte_metrics ticks lives.now) }
{
    push_heading(
        words,
        b"mapsched_flow_asked_bytes",
        b"gauge",
        Measure::Bytes,
        b"Bytes of accepted requests.",
    )?;
    push_samples(words, ticks, LifeMetric::Count(LifeCount::Asked), lives)?;
    push_heading(
        words,
        b"mapsched_flow_granted_bytes",
        b"counter",
        Measure::Bytes,
        b"Bytes of data grants, or of unsolicited grants.",
    )?;
    push_samples(words, ticks, LifeMetric::Count(LifeCount::Granted), lives)?;
    push_heading(
        words,
        b"mapsched_flow_outstanding_bytes",
        b"gauge",
        Measure::Bytes,
        b"Bytes that were asked and not granted.",
    )?;
    push_samples(
        words,
        ticks,
        LifeMetric::Count(LifeCount::Outstanding),
        lives,
    )
}

// Their requests.
#[tactic(auto, unfolding(crate::specs::LifeMetrics::life_request_metrics))]
fn push_requests(words: &mut Vec<u8>, ticks: u32, lives: &[LifeNumbers]) -> Result<(), AllocError>
    ensures { OnOk result (words.new.items
        ≡ words.old.items ++ life_request_metrics ticks lives.now) }
{
    push_heading(
        words,
        b"mapsched_flow_requests",
        b"counter",
        Measure::Pieces,
        b"Accepted requests.",
    )?;
    push_samples(words, ticks, LifeMetric::Count(LifeCount::Requests), lives)?;
    push_heading(
        words,
        b"mapsched_flow_served_requests",
        b"counter",
        Measure::Pieces,
        b"Requests that were served.",
    )?;
    push_samples(words, ticks, LifeMetric::Count(LifeCount::Served), lives)?;
    push_heading(
        words,
        b"mapsched_flow_waiting_requests",
        b"gauge",
        Measure::Pieces,
        b"Requests that wait.",
    )?;
    push_samples(words, ticks, LifeMetric::Count(LifeCount::Waiting), lives)
}

// For how long the first of those that wait has waited.
#[tactic(auto, unfolding(crate::specs::LifeMetrics::life_oldest_metrics))]
fn push_oldest(words: &mut Vec<u8>, ticks: u32, lives: &[LifeNumbers]) -> Result<(), AllocError>
    ensures { OnOk result (words.new.items
        ≡ words.old.items ++ life_oldest_metrics ticks lives.now) }
{
    push_heading(
        words,
        b"mapsched_flow_oldest_request_seconds",
        b"gauge",
        Measure::Seconds,
        b"Time from where the first request that waits was heard to the start of the next frame.",
    )?;
    push_samples(words, ticks, LifeMetric::Oldest, lives)
}

// Those that will never be served.
#[tactic(auto, unfolding(crate::specs::LifeMetrics::life_lost_metrics))]
fn push_lost(words: &mut Vec<u8>, ticks: u32, lives: &[LifeNumbers]) -> Result<(), AllocError>
    ensures { OnOk result (words.new.items
        ≡ words.old.items ++ life_lost_metrics ticks lives.now) }
{
    push_heading(
        words,
        b"mapsched_flow_dropped_requests",
        b"counter",
        Measure::Pieces,
        b"Requests that waited when the flow was removed.",
    )?;
    push_samples(words, ticks, LifeMetric::Count(LifeCount::Dropped), lives)?;
    push_heading(
        words,
        b"mapsched_flow_replaced_requests",
        b"counter",
        Measure::Pieces,
        b"Requests that waited when another superseded them.",
    )?;
    push_samples(words, ticks, LifeMetric::Count(LifeCount::Replaced), lives)
}

// At how many starts of MAPs they waited under their minimum reserved rates, where one has such a rate.
#[tactic(auto, unfolding(crate::specs::LifeMetrics::life_under_metrics))]
fn push_under(words: &mut Vec<u8>, ticks: u32, lives: &[LifeNumbers]) -> Result<(), AllocError>
    ensures { OnOk result (words.new.items
        ≡ words.old.items ++ life_under_metrics ticks lives.now) }
{
    if !is_any_reserved(lives) {
        return Ok(());
    }
    push_heading(
        words,
        b"mapsched_flow_under_reservation_frames",
        b"counter",
        Measure::Pieces,
        b"Frames at whose start the flow waited under its minimum reserved rate.",
    )?;
    push_samples(words, ticks, LifeMetric::Under, lives)
}

// And at how many at their ceilings, where one has a ceiling.
#[tactic(auto, unfolding(crate::specs::LifeMetrics::life_held_metrics))]
fn push_held(words: &mut Vec<u8>, ticks: u32, lives: &[LifeNumbers]) -> Result<(), AllocError>
    ensures { OnOk result (words.new.items
        ≡ words.old.items ++ life_held_metrics ticks lives.now) }
{
    if !is_any_held(lives) {
        return Ok(());
    }
    push_heading(
        words,
        b"mapsched_flow_at_ceiling_frames",
        b"counter",
        Measure::Pieces,
        b"Frames at whose start the flow waited while its rate or its peak had no room.",
    )?;
    push_samples(words, ticks, LifeMetric::Held, lives)
}

// How long those took that were served.
#[tactic(auto, unfolding(crate::specs::LifeMetrics::life_delay_metrics))]
fn push_delay_metrics(
    words: &mut Vec<u8>,
    ticks: u32,
    lives: &[LifeNumbers],
) -> Result<(), AllocError>
    ensures { OnOk result (words.new.items
        ≡ words.old.items ++ life_delay_metrics ticks lives.now) }
{
    push_heading(
        words,
        b"mapsched_flow_delay_seconds",
        b"summary",
        Measure::Seconds,
        b"Time from where a request was heard to the end of the grant that served it.",
    )?;
    push_samples(words, ticks, LifeMetric::Delay, lives)
}

// The metrics of all lives.
#[tactic(auto, unfolding(crate::specs::LifeMetrics::lives_metrics))]
pub(crate) fn push_lives_metrics(
    words: &mut Vec<u8>,
    ticks: u32,
    lives: &[LifeNumbers],
) -> Result<(), AllocError>
    ensures { OnOk result (words.new.items ≡ words.old.items ++ lives_metrics ticks lives.now) }
{
    push_spans(words, ticks, lives)?;
    push_bytes(words, ticks, lives)?;
    push_requests(words, ticks, lives)?;
    push_oldest(words, ticks, lives)?;
    push_lost(words, ticks, lives)?;
    push_under(words, ticks, lives)?;
    push_held(words, ticks, lives)?;
    push_delay_metrics(words, ticks, lives)
}
