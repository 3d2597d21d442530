//! What the entries of a history meet of the opportunities that wait.

ghost use Rattle.std.specs.Prelude.{◌≡◌, ◌<◌, ◌≤◌, ◌++◌, ◌∷◌, [], List, length, get_or, IfOk, OnOk, OnErr, IsErrOf};
ghost use Rattle.sched_calls.specs.declared.reply.TheConstants.{MAX_ENTRIES, MAX_WHOLE_HISTORY};
ghost use Rattle.sched_history.specs.History.{IsStep, IsLegal};
ghost use Rattle.sched_history.specs.Reserves.{met_after};
ghost use Rattle.frame_picture.specs.Meeting.{IsMetByFront, met_lists};

use minislots::Checked;
use sched_history::{Auditor, Entry, JudgeFault, Met};
use std::alloc::{AllocError, Global};

// Judges an entry, and tells what it meets where it may follow those that were taken.
pub(crate) fn judge_met(auditor: &mut Auditor, entry: &Entry) -> Result<Vec<Met>, JudgeFault>
    // An entry that is taken stands behind those before it, and meets this.
    ensures taken { OnOk result
        (auditor.new ≡ record auditor.old { history = auditor.old.history ++ entry.now ∷ [] }) }
    ensures met { IfOk result (λ met.
        met.items ≡ met_after auditor.old.config auditor.old.history entry.now.reply) }
    ensures legal { OnOk result (IsLegal auditor.new.config auditor.new.history) }
    ensures short { OnOk result (length auditor.old.history < MAX_WHOLE_HISTORY) }

    // Else nothing changes.
    ensures err { OnErr result (auditor.new ≡ auditor.old) }
    ensures full { IsErrOf result JudgeFault.Full →
        MAX_WHOLE_HISTORY ≤ length auditor.old.history }
    ensures illegal { IsErrOf result JudgeFault.Illegal →
        IsStep auditor.old.config auditor.old.history entry.now.call entry.now.reply → ⊥ }
{
    let Ok(met) = auditor.met(entry) else {
        return Err(JudgeFault::Memory);
    };
    auditor.judge(entry)?;
    Ok(met)
}

/// What the MAP of each entry of a history meets of the opportunities that wait for it: as the plan has it, whatever
/// its elements read like. From the first entry on that may not follow those before it there is no plan, and none is
/// told.
pub fn met_by_entries(
    alloc: Global,
    config: &Checked,
    entries: &[Entry],
) -> Result<Vec<Vec<Met>>, AllocError>
    requires { length entries.now ≤ MAX_ENTRIES }
    ensures { IfOk result (λ found. IsMetByFront config.now entries.now (met_lists found.items)) }
{
    let mut auditor = Auditor::open(alloc, *config)?;
    let mut found = Vec::new(alloc);
    for i in 0..entries.len() {
        match judge_met(&mut auditor, &entries[i]) {
            Ok(met) => found.push(met)?,
            Err(JudgeFault::Illegal) => return Ok(found),
            Err(JudgeFault::Memory) => return Err(AllocError),
            // There are fewer than an auditor takes.
            Err(JudgeFault::Full) => unreachable!(),
        }
    }
    Ok(found)
}

// What was found of the entry at a place.
pub(crate) fn met_at_place(found: &[Vec<Met>], i: usize) -> &[Met]
    ensures { result.now ≡ get_or (met_lists found.now) i [] }
{
    match found.get(i) {
        Some(met) => met,
        None => &[],
    }
}
