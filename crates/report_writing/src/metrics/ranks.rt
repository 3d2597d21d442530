//! The metrics of each rank.

ghost use Rattle.std.specs.Prelude.{◌≡◌, ◌++◌, flat_map, OnOk};
ghost use Rattle.report_writing.specs.RankMetrics.{rank_metric_name, rank_metric_number, rank_sample, rank_samples};
ghost use Rattle.report_writing.specs.RankMetrics.{rank_delays, rank_asked_metrics, rank_left_metrics};
ghost use Rattle.report_writing.specs.RankMetrics.{rank_delay_metrics, ranks_metrics};

use crate::cell::Spread;
use crate::metrics::delays::{Delays, push_delays};
use crate::metrics::sample::{Measure, Whose, push_count_sample, push_heading};
use sched_report::RankTold;
use std::alloc::AllocError;

// A number of each rank.
#[derive(Clone, Copy)]
pub(crate) enum RankMetric {
    Granted,
    Requests,
    Served,
    Waiting,
    Dropped,
    Replaced,
}

// Its name.
fn name_of(metric: RankMetric) -> &'static [u8]
    ensures { result.now ≡ rank_metric_name metric }
{
    match metric {
        RankMetric::Granted => b"mapsched_rank_granted_bytes",
        RankMetric::Requests => b"mapsched_rank_requests",
        RankMetric::Served => b"mapsched_rank_served_requests",
        RankMetric::Waiting => b"mapsched_rank_waiting_requests",
        RankMetric::Dropped => b"mapsched_rank_dropped_requests",
        RankMetric::Replaced => b"mapsched_rank_replaced_requests",
    }
}

// Its number of a rank.
fn number_of(metric: RankMetric, told: &RankTold) -> u128
    ensures { result ≡ rank_metric_number metric told.now }
{
    let sums = told.numbers.sums;
    match metric {
        RankMetric::Granted => sums.granted,
        RankMetric::Requests => sums.asks,
        RankMetric::Served => sums.served,
        RankMetric::Waiting => sums.waiting,
        RankMetric::Dropped => sums.dropped,
        RankMetric::Replaced => sums.replaced,
    }
}

// Its sample of a rank.
#[tactic(auto, unfolding(crate::specs::RankMetrics::rank_sample))]
fn push_sample(words: &mut Vec<u8>, metric: RankMetric, told: &RankTold) -> Result<(), AllocError>
    ensures { OnOk result (words.new.items ≡ words.old.items ++ rank_sample metric told.now) }
{
    push_count_sample(
        words,
        name_of(metric),
        Whose::Rank(told.rank),
        number_of(metric, told),
    )
}

// Of all ranks.
fn push_samples(
    words: &mut Vec<u8>,
    metric: RankMetric,
    ranks: &[RankTold],
) -> Result<(), AllocError>
    ensures { OnOk result (words.new.items ≡ words.old.items ++ rank_samples metric ranks.now) }
{
    for told in ranks {
        push_sample(words, metric, told)?;
    }
    Ok(())
}

// The delays of a rank.
#[tactic(auto, unfolding(crate::specs::RankMetrics::rank_delays))]
fn push_rank_delays(words: &mut Vec<u8>, ticks: u32, told: &RankTold) -> Result<(), AllocError>
    ensures { OnOk result (words.new.items ≡ words.old.items ++ rank_delays ticks told.now) }
{
    let delays = Delays {
        ticks,
        name: b"mapsched_rank_delay_seconds",
        whose: Whose::Rank(told.rank),
    };
    let spread = Spread {
        greatest: told.numbers.sums.greatest,
        least: told.numbers.sums.least,
        middle: told.numbers.middle,
        p99: told.numbers.p99,
    };
    push_delays(words, delays, spread)
}

// The delays of these ranks.
fn push_all_delays(words: &mut Vec<u8>, ticks: u32, ranks: &[RankTold]) -> Result<(), AllocError>
    ensures { OnOk result (words.new.items
        ≡ words.old.items ++ flat_map (rank_delays ticks) ranks.now) }
{
    for told in ranks {
        push_rank_delays(words, ticks, told)?;
    }
    Ok(())
}

// What was granted to the flows of each rank, and what they asked.
#[tactic(auto, unfolding(crate::specs::RankMetrics::rank_asked_metrics))]
fn push_asked(words: &mut Vec<u8>, ranks: &[RankTold]) -> Result<(), AllocError>
    ensures { OnOk result (words.new.items ≡ words.old.items ++ rank_asked_metrics ranks.now) }
{
    push_heading(
        words,
        b"mapsched_rank_granted_bytes",
        b"gauge",
        Measure::Bytes,
        b"Bytes of data grants to the flows of a rank.",
    )?;
    push_samples(words, RankMetric::Granted, ranks)?;
    push_heading(
        words,
        b"mapsched_rank_requests",
        b"gauge",
        Measure::Pieces,
        b"Accepted requests of the flows of a rank.",
    )?;
    push_samples(words, RankMetric::Requests, ranks)?;
    push_heading(
        words,
        b"mapsched_rank_served_requests",
        b"gauge",
        Measure::Pieces,
        b"Requests that were served.",
    )?;
    push_samples(words, RankMetric::Served, ranks)
}

// And their requests that were not served.
#[tactic(auto, unfolding(crate::specs::RankMetrics::rank_left_metrics))]
fn push_left(words: &mut Vec<u8>, ranks: &[RankTold]) -> Result<(), AllocError>
    ensures { OnOk result (words.new.items ≡ words.old.items ++ rank_left_metrics ranks.now) }
{
    push_heading(
        words,
        b"mapsched_rank_waiting_requests",
        b"gauge",
        Measure::Pieces,
        b"Requests that wait.",
    )?;
    push_samples(words, RankMetric::Waiting, ranks)?;
    push_heading(
        words,
        b"mapsched_rank_dropped_requests",
        b"gauge",
        Measure::Pieces,
        b"Requests that waited when their flow was removed.",
    )?;
    push_samples(words, RankMetric::Dropped, ranks)?;
    push_heading(
        words,
        b"mapsched_rank_replaced_requests",
        b"gauge",
        Measure::Pieces,
        b"Requests that waited when another superseded them.",
    )?;
    push_samples(words, RankMetric::Replaced, ranks)
}

// How long those took that were served.
#[tactic(auto, unfolding(crate::specs::RankMetrics::rank_delay_metrics))]
fn push_delay_metrics(words: &mut Vec<u8>, ticks: u32, ranks: &[RankTold]) -> Result<(), AllocError>
    ensures { OnOk result (words.new.items
        ≡ words.old.items ++ rank_delay_metrics ticks ranks.now) }
{
    push_heading(
        words,
        b"mapsched_rank_delay_seconds",
        b"summary",
        Measure::Seconds,
        b"Time from where a request was heard to the end of the grant that served it.",
    )?;
    push_all_delays(words, ticks, ranks)
}

// The metrics of all ranks, from the one that is served first on.
#[tactic(auto, unfolding(crate::specs::RankMetrics::ranks_metrics))]
pub(crate) fn push_ranks_metrics(
    words: &mut Vec<u8>,
    ticks: u32,
    ranks: &[RankTold],
) -> Result<(), AllocError>
    ensures { OnOk result (words.new.items ≡ words.old.items ++ ranks_metrics ticks ranks.now) }
{
    push_asked(words, ranks)?;
    push_left(words, ranks)?;
    push_delay_metrics(words, ticks, ranks)
}
