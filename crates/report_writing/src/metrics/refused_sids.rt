//! The SIDs that refused calls name as metrics.

ghost use Rattle.std.specs.Prelude.{◌≡◌, ◌<◌, ◌++◌, length, OnOk};
ghost use Rattle.report_writing.specs.RefusedSids.{refused_sid_sample, refused_sids_metrics};

use crate::metrics::sample::{Measure, Whose, push_count_sample, push_heading};
use std::alloc::AllocError;

// How many refused calls name a SID, where one does.
#[tactic(auto, unfolding(crate::specs::RefusedSids::refused_sid_sample))]
fn push_refused_sid(words: &mut Vec<u8>, refused: &[u64], sid: usize) -> Result<(), AllocError>
    requires { sid < length refused.now }
    ensures { OnOk result (words.new.items ≡ words.old.items ++ refused_sid_sample refused.now sid) }
{
    let count = refused[sid];
    if count == 0 {
        return Ok(());
    }
    push_count_sample(
        words,
        b"mapsched_sid_refusals_total",
        Whose::Sid(sid as u64),
        u128::from(count),
    )
}

// The SIDs that they name, in ascending order.
#[tactic(auto, unfolding(crate::specs::RefusedSids::refused_sids_metrics))]
pub(crate) fn push_refused_sids(words: &mut Vec<u8>, refused: &[u64]) -> Result<(), AllocError>
    ensures { OnOk result (words.new.items ≡ words.old.items ++ refused_sids_metrics refused.now) }
{
    push_heading(
        words,
        b"mapsched_sid_refusals",
        b"counter",
        Measure::Pieces,
        b"Refused calls by the SID that they name, whether a flow has it or not.",
    )?;
    for sid in 0..refused.len() {
        push_refused_sid(words, refused, sid)?;
    }
    Ok(())
}
