//! The samples of one life of a flow.

ghost use Rattle.std.specs.Prelude.{◌≡◌, ◌++◌, codes, OnOk};
ghost use Rattle.report_writing.specs.Report.{kind_name, rank_of};
ghost use Rattle.report_writing.specs.Samples.{label, labels_of, count_sample_or_none, time_sample_or_none};
ghost use Rattle.report_writing.specs.LifeMetrics.{life_count_name, life_count, rank_label_of, life_labels};
ghost use Rattle.report_writing.specs.LifeMetrics.{life_info, life_samples};

use crate::held::held_of;
use crate::life::{kind_name, rank_of, spread_of};
use crate::metrics::delays::{Delays, push_delays};
use crate::metrics::sample::{Whose, push_count_sample, push_label, push_labels, push_time_sample};
use crate::reserved::under_of;
use flow_book::FlowSpec;
use sched_report::LifeNumbers;
use std::alloc::AllocError;

// A count of each life.
#[derive(Clone, Copy)]
pub(crate) enum LifeCount {
    Asked,
    Granted,
    Outstanding,
    Requests,
    Served,
    Waiting,
    Dropped,
    Replaced,
}

// A metric of each life.
#[derive(Clone, Copy)]
pub(crate) enum LifeMetric {
    Info,
    Start,
    End,
    Count(LifeCount),
    Oldest,
    Under,
    Held,
    Delay,
}

// The name of the samples of a count.
fn name_of(count: LifeCount) -> &'static [u8]
    ensures { result.now ≡ life_count_name count }
{
    match count {
        LifeCount::Asked => b"mapsched_flow_asked_bytes",
        LifeCount::Granted => b"mapsched_flow_granted_bytes_total",
        LifeCount::Outstanding => b"mapsched_flow_outstanding_bytes",
        LifeCount::Requests => b"mapsched_flow_requests_total",
        LifeCount::Served => b"mapsched_flow_served_requests_total",
        LifeCount::Waiting => b"mapsched_flow_waiting_requests",
        LifeCount::Dropped => b"mapsched_flow_dropped_requests_total",
        LifeCount::Replaced => b"mapsched_flow_replaced_requests_total",
    }
}

// This count of a life.
fn count_of(count: LifeCount, life: &LifeNumbers) -> u128
    ensures { result ≡ life_count count life.now }
{
    match count {
        LifeCount::Asked => u128::from(life.sums.asked),
        LifeCount::Granted => life.granted,
        LifeCount::Outstanding => u128::from(life.outstanding),
        LifeCount::Requests => u128::from(life.sums.asks),
        LifeCount::Served => u128::from(life.sums.delays.served),
        LifeCount::Waiting => u128::from(life.waiting),
        LifeCount::Dropped => u128::from(life.dropped),
        LifeCount::Replaced => u128::from(life.sums.replaced),
    }
}

// The label of the kind.
fn push_kind(words: &mut Vec<u8>, spec: FlowSpec) -> Result<(), AllocError>
    ensures { OnOk result (words.new.items
        ≡ words.old.items ++ label (codes "kind") (kind_name spec)) }
{
    let kind = kind_name(spec);
    push_label(words, b"kind", kind.as_bytes())
}

// The label of the rank, where the flow has one.
fn push_rank(words: &mut Vec<u8>, spec: FlowSpec) -> Result<(), AllocError>
    ensures { OnOk result (words.new.items ≡ words.old.items ++ rank_label_of (rank_of spec)) }
{
    let Some(rank) = rank_of(spec) else {
        return Ok(());
    };
    words.extend_from_slice(b",")?;
    push_labels(words, Whose::Rank(rank))
}

// What a life is of: its place, its SID, the kind of its flow, and its rank.
#[tactic(auto, unfolding(crate::specs::LifeMetrics::life_labels))]
fn push_life_labels(words: &mut Vec<u8>, place: u64, life: &LifeNumbers) -> Result<(), AllocError>
    ensures { OnOk result (words.new.items ≡ words.old.items ++ life_labels place life.now) }
{
    push_labels(words, Whose::Life(place, life.sid))?;
    words.extend_from_slice(b",")?;
    push_kind(words, life.spec)?;
    push_rank(words, life.spec)
}

// The sample that tells it.
#[tactic(auto, unfolding(crate::specs::LifeMetrics::life_info))]
fn push_info(words: &mut Vec<u8>, place: u64, life: &LifeNumbers) -> Result<(), AllocError>
    ensures { OnOk result (words.new.items ≡ words.old.items ++ life_info place life.now) }
{
    words.extend_from_slice(b"mapsched_flow_info{")?;
    push_life_labels(words, place, life)?;
    words.extend_from_slice(b"} 1\n")
}

// The sample of a number, where there is one.
fn push_count_or_none(
    words: &mut Vec<u8>,
    name: &[u8],
    whose: Whose,
    number: Option<u128>,
) -> Result<(), AllocError>
    ensures { OnOk result (words.new.items
        ≡ words.old.items ++ count_sample_or_none name.now (labels_of whose) number) }
{
    match number {
        Some(number) => push_count_sample(words, name, whose, number),
        None => Ok(()),
    }
}

// The sample of a time, where there is one.
fn push_time_or_none(
    words: &mut Vec<u8>,
    ticks: u32,
    name: &[u8],
    whose: Whose,
    minislots: Option<u64>,
) -> Result<(), AllocError>
    ensures { OnOk result (words.new.items
        ≡ words.old.items ++ time_sample_or_none ticks name.now (labels_of whose) minislots) }
{
    let Some(minislots) = minislots else {
        return Ok(());
    };
    push_time_sample(words, ticks, name, whose, minislots)
}

// The samples of a metric of the life at a place.
#[tactic(auto, unfolding(crate::specs::LifeMetrics::life_samples))]
pub(crate) fn push_life(
    words: &mut Vec<u8>,
    ticks: u32,
    metric: LifeMetric,
    place: u64,
    life: &LifeNumbers,
) -> Result<(), AllocError>
    ensures { OnOk result (words.new.items
        ≡ words.old.items ++ life_samples ticks metric place life.now) }
{
    let whose = Whose::Life(place, life.sid);
    match metric {
        LifeMetric::Info => push_info(words, place, life),
        LifeMetric::Start => {
            let name = b"mapsched_flow_start_seconds";
            push_time_sample(words, ticks, name, whose, life.from)
        }
        LifeMetric::End => {
            push_time_sample(words, ticks, b"mapsched_flow_end_seconds", whose, life.to)
        }
        LifeMetric::Count(count) => {
            push_count_sample(words, name_of(count), whose, count_of(count, life))
        }
        LifeMetric::Oldest => {
            let name = b"mapsched_flow_oldest_request_seconds";
            push_time_or_none(words, ticks, name, whose, life.oldest)
        }
        LifeMetric::Under => {
            let name = b"mapsched_flow_under_reservation_frames_total";
            push_count_or_none(words, name, whose, under_of(life))
        }
        LifeMetric::Held => {
            let name = b"mapsched_flow_at_ceiling_frames_total";
            push_count_or_none(words, name, whose, held_of(life))
        }
        LifeMetric::Delay => {
            let name = b"mapsched_flow_delay_seconds";
            push_delays(words, Delays { ticks, name, whose }, spread_of(life))
        }
    }
}
