//! A history that somebody hands in, judged.

ghost use Rattle.std.specs.Prelude.{◌≤◌, ℕ, length, OnOk, IsErrOf};
ghost use Rattle.sched_calls.specs.declared.reply.TheConstants.{MAX_ENTRIES};
ghost use Rattle.sched_history.specs.History.{IsLegal};
ghost use Rattle.sched_history.specs.Audit.{IsFirstIllegal};

mod auditor;
mod expected;
pub(crate) mod sameness;

use crate::fault::{AuditFault, JudgeFault};
pub use auditor::Auditor;
pub use expected::lawful_reply;
use minislots::Checked;
use sched_calls::Entry;
use std::alloc::Global;

/// Judges a history under a configuration: whether each reply is one that the scheduler may give after
/// the entries before it. Every lawful placement is one, whichever this scheduler would take, and the
/// refusal that no place is free where there is none. There are at most [`MAX_ENTRIES`](crate::MAX_ENTRIES)
/// entries. Their stamps are not judged, nor is their number by what the configuration records.
pub fn audit(alloc: Global, config: &Checked, entries: &[Entry]) -> Result<(), AuditFault>
    requires { length entries.now ≤ MAX_ENTRIES }
    ensures legal { OnOk result (IsLegal config.now entries.now) }
    ensures exact { IsLegal config.now entries.now
        → (i : ℕ) → IsErrOf result (AuditFault.Illegal i) → ⊥ }
    ensures illegal { (i : ℕ)
        → IsErrOf result (AuditFault.Illegal i) → IsFirstIllegal config.now entries.now i }
{
    let Ok(mut auditor) = Auditor::open(alloc, *config) else {
        return Err(AuditFault::Memory);
    };
    for index in 0..entries.len() {
        match auditor.judge(&entries[index]) {
            Ok(()) => {}
            Err(JudgeFault::Illegal) => return Err(AuditFault::Illegal(index)),
            Err(JudgeFault::Memory) => return Err(AuditFault::Memory),
            // There are fewer than an auditor takes.
            Err(JudgeFault::Full) => unreachable!(),
        }
    }
    Ok(())
}
