//! The numbers of a report in the OpenMetrics text format.

ghost use Rattle.std.specs.Prelude.{◌≡◌, ◌++◌, IfOk, OnOk};
ghost use Rattle.report_writing.specs.Metrics.{channel_metrics, IsReportMetrics};

mod calls;
mod channel;
mod delays;
mod extremes;
mod life;
mod lives;
mod ranks;
mod refused_sids;
mod sample;

use crate::gathered::{lives_told, ranks_told};
use calls::push_calls;
use channel::{push_frames, push_reach, push_refusals, push_use};
use extremes::push_extremes;
use lives::push_lives_metrics;
use minislots::Checked;
use ranks::push_ranks_metrics;
use refused_sids::push_refused_sids;
use sched_report::{Reporter, Totals};
use std::alloc::{AllocError, Global};

// The numbers of the channel.
#[tactic(auto, unfolding(crate::specs::Metrics::channel_metrics))]
fn push_channel(
    words: &mut Vec<u8>,
    ticks: u32,
    totals: &Totals,
    refused: &[u64],
) -> Result<(), AllocError>
    ensures { OnOk result (words.new.items
        ≡ words.old.items ++ channel_metrics ticks totals.now refused.now) }
{
    push_frames(words, totals)?;
    push_reach(words, ticks, totals)?;
    push_calls(words, &totals.calls)?;
    push_refusals(words, refused)?;
    push_use(words, ticks, totals.opens, &totals.slots)
}

/// The report on the entries that were taken as OpenMetrics, under the configuration of the reporter: times in seconds,
/// which are exact, amounts in bytes, and `# EOF` in the last line.
pub fn metrics_text(
    alloc: Global,
    config: &Checked,
    reporter: &Reporter,
) -> Result<Vec<u8>, AllocError>
    requires { config.now ≡ reporter.now.config }
    ensures { IfOk result (λ text.
        IsReportMetrics reporter.now text.items) }
{
    let ticks = config.ticks();
    let lives = lives_told(alloc, reporter)?;
    let ranks = ranks_told(alloc, reporter)?;
    let totals = reporter.totals();
    let extremes = reporter.extremes();
    let mut words = Vec::new(alloc);
    push_channel(&mut words, ticks, &totals, reporter.refused())?;
    push_extremes(&mut words, ticks, config.receivers(), &extremes)?;
    push_refused_sids(&mut words, reporter.refused_sids())?;
    push_ranks_metrics(&mut words, ticks, &ranks)?;
    push_lives_metrics(&mut words, ticks, &lives)?;
    words.extend_from_slice(b"# EOF\n")?;
    Ok(words)
}
