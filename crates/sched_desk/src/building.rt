//! What a build does at the desk besides publishing.
ghost use Rattle.std.specs.Prelude.{◌≡◌, ◌+◌, ◌≤◌, ◌↔◌, true, length, Ok, Some, IfOk, OnErr, IsErrOf};
ghost use Rattle.map_codec.specs.WireMap.{spelling, IsWellFormed};
ghost use Rattle.map_snapshot.specs.declared.printed.TheConstants.{MAX_BYTES};
ghost use Rattle.map_snapshot.specs.Maps.{map_in};
ghost use Rattle.sched_history.specs.History.{IsLegal};
ghost use Rattle.sched_history.specs.Machine.{is_full, MayLackMemory};
ghost use Rattle.sched_history.specs.Planned.{IsPlanAfter};
ghost use Rattle.sched_history.specs.Refusal.{refusal_of};
ghost use Rattle.sched_desk.specs.Build.{Appends, ShowsPlan};
ghost use Rattle.sched_desk.specs.Calls.{HasAnswered};
ghost use Rattle.sched_desk.specs.Desk.{ShowsHistory};

use crate::kept::Kept;
use map_codec::{WireMap, encode};
use map_snapshot::{MAX_BYTES, Printed};
use minislots::Stamp;
use sched_history::{Call, PlanFault, Planned, Refusal, Reply, Scheduler};

// A MAP as it is published.
fn print(version: u64, map: &WireMap) -> Printed
    requires { IsWellFormed map.now }
    ensures version { result.version ≡ version }
    ensures fits { result.len ≤ MAX_BYTES }
    ensures map { map_in result ≡ spelling map.now }
{
    let mut printed = Printed {
        version,
        len: 0,
        bytes: [0; MAX_BYTES],
    };
    printed.len = encode(map, &mut printed.bytes);
    printed
}

/// Plans a build, and appends its MAP to the press: all memory that the build needs is taken, and nobody sees anything
/// of it yet. After a fault nothing is changed. It takes no handle.
pub fn prepare(
    scheduler: &mut Scheduler,
    press: &mut Kept,
    maps: u64,
    now: u64,
) -> Result<Planned, PlanFault>
    requires shows { ShowsHistory scheduler.old press.old maps }
    ensures same { scheduler.new ≡ scheduler.old }
    ensures legal { IsLegal scheduler.new.config scheduler.new.history }

    ensures clock { IfOk result (λ planned. planned.clock ≡ now) }
    ensures fits { IfOk result (IsPlanAfter scheduler.old) }
    ensures appended { IfOk result
        (λ planned. Appends press.old (spelling planned.map.wire) press.new) }

    ensures err { OnErr result (press.new ≡ press.old) }
    ensures full { IsErrOf result PlanFault.HistoryFull ↔ (is_full scheduler.old ≡ true) }
    ensures whole { scheduler.old.handed ≡ 0 → IsErrOf result PlanFault.HistoryFull
        ↔ (scheduler.old.config.calls ≤ length scheduler.old.history) }
    ensures refused { (refusal : Refusal) → IsErrOf result (PlanFault.Refused refusal) →
        refusal_of scheduler.old.config scheduler.old.history (Call.Build now) ≡ Some refusal }
    ensures memory { IsErrOf result PlanFault.Memory →
        MayLackMemory scheduler.old.config scheduler.old.history (Call.Build now) }
{
    // That they are legal is told on: a plan does not say it.
    let _entries = scheduler.history();
    let planned = scheduler.plan(now)?;
    let printed = print(maps + 1, &planned.map().wire);
    match press.append(printed) {
        Ok(()) => Ok(planned),
        Err(_) => Err(PlanFault::Memory),
    }
}

/// Records a planned build, whose MAP the press has published already. It takes no memory, no handle, and cannot fail.
pub fn commit(
    scheduler: &mut Scheduler,
    press: &Kept,
    maps: u64,
    stamp: Stamp,
    planned: Planned,
) -> Reply
    requires fits { IsPlanAfter scheduler.old planned }
    requires shown { ShowsPlan scheduler.old press.now maps (spelling planned.map.wire) }
    ensures answered { HasAnswered scheduler.old stamp
        (Call.Build planned.clock) scheduler.new (Ok result) }
    ensures shows { ShowsHistory scheduler.new press.now (maps + 1) }
{
    scheduler.commit(stamp, planned)
}
