//! A storm: scripts that threads run at the same time, each with a seat of its own, on one scheduler.

ghost use Rattle.std.specs.Prelude.{◌≡◌, ◌⊎◌, ◌<◌, ◌↔◌, true, false, IfOk, OnOk, IfErr, IsErrOf, [], length};
ghost use Rattle.std.specs.Prelude.{vec_len, vec_capacity};
ghost use Rattle.sched_calls.specs.declared.call.TheConstants.{MAX_SCRIPTS};
ghost use Rattle.ticket_lock.specs.Rule.{Every};
ghost use Rattle.ticket_lock.specs.Standing.{seats_of};
ghost use Rattle.sched_storm.specs.Jobs.{calls_each};
ghost use Rattle.sched_storm.specs.Storm.{IsTally, IsGatedTally, Tells};

use crate::gate::Gate;
use crate::gather::Gathered;
use crate::jobs::{Rooms, run_workers};
use crate::reading::read_last;
use crate::starts::Starts;
use crate::tally::{StormFault, Tally, count_maps, is_legal};
use map_snapshot::Reader;
use minislots::Checked;
use sched_history::{Call, MAX_SCRIPTS};
use shared_sched::{Closed, Shared, open};
use std::alloc::{AllocError, Global};
use std::sync::Wait;

// Makes room for so many workers.
fn reserve<R: Starts, G: Gate>(alloc: Global, workers: usize) -> Result<Rooms<R, G>, AllocError>
    ensures jobs { IfOk result (λ r. (r.jobs.items ≡ []) × (vec_capacity r.jobs ≡ workers)) }
    ensures row { IfOk result (λ r. (r.row.items ≡ []) × (vec_capacity r.row ≡ workers)) }
{
    Ok(Rooms {
        jobs: Vec::with_capacity(alloc, workers)?,
        row: Vec::with_capacity(alloc, workers)?,
    })
}

// Closes the scheduler, reads what it published last, counts what its history has, and audits it. There is no tally
// where a worker was stopped, or where memory ran out for the audit.
fn close<R: Wait>(
    rt: &R,
    alloc: Global,
    checked: &Checked,
    shared: Shared,
    reader: Reader,
    gathered: Gathered,
) -> Result<Tally, StormFault>
    requires config { shared.config ≡ checked.now }
    requires own { Every (λ s. s.lock ≡ shared.lock) gathered.seats.items }
    requires all { length gathered.seats.items ≡ seats_of shared.lock }
    requires reader { reader.press ≡ shared.press }
    requires keeps { shared.keeps ≡ true }
    ensures told { IfOk result (Tells shared.config shared.lock gathered) }
    ensures ok { OnOk result (gathered.stopped ≡ false) }
    ensures err { IfErr result (λ fault. ((fault ≡ StormFault.Threads) × (gathered.stopped ≡ true))
        ⊎ ((fault ≡ StormFault.Memory) × (gathered.stopped ≡ false))) }
{
    let Gathered {
        seats,
        unrecorded,
        held,
        stopped,
    } = gathered;
    let Closed {
        history,
        first: _,
        counts,
        press,
    } = shared.close(seats);
    let newest = read_last(rt, press, reader);
    if stopped {
        return Err(StormFault::Threads);
    }
    let maps = count_maps(&history);
    let legal = is_legal(alloc, checked, &history)?;
    Ok(Tally {
        history,
        counts,
        unrecorded,
        maps,
        newest,
        legal,
        held,
    })
}

/// Runs 1 to 16 scripts at the same time on a new scheduler of this configuration: script i has a thread,
/// which is worker i, and seat i. Before each call its worker asks the gate and yields until the gate lets it
/// pass; a worker that asked 1000000 times in vain before one call makes no more of them, and is held. After
/// each call the gate is told. It waits until all workers have ended. Then one reader, told of all that was published,
/// reads the newest MAP, the press is ended, and the history is audited. Where a thread was not started, there is
/// no tally, and none where memory ran out, for the audit too.
pub fn storm_with<R: Starts + Wait + Sync, G: Gate>(
    rt: &R,
    alloc: Global,
    checked: Checked,
    scripts: Vec<Vec<Call>>,
    gate: &G,
) -> Result<Tally, StormFault>
    ensures tally { IfOk result (IsTally checked (calls_each scripts.items)) }
    ensures count { IsErrOf result StormFault.ScriptCount
        ↔ ((vec_len scripts ≡ 0) ⊎ (MAX_SCRIPTS < vec_len scripts)) }

    // A missing thread is told only where one was not started.
    ensures no_thread { IsErrOf result StormFault.Threads → R.lacks_thread }

    // No audit finds a history of threads illegal.
    ensures legal { IfOk result (λ tally. tally.legal ≡ true) }

    // The gate let each worker pass before each call that it made, and held it before the next one, if there is one.
    ensures gated { IfOk result (IsGatedTally (G.lets_pass gate.now) (G.holds_back gate.now) checked
        (calls_each scripts.items)) }
{
    let workers = scripts.len();
    if workers == 0 || workers > MAX_SCRIPTS {
        return Err(StormFault::ScriptCount);
    }
    let Ok(rooms) = reserve(alloc, workers) else {
        return Err(StormFault::Memory);
    };
    let Ok((shared, seats, mut readers)) = open(rt, alloc, checked, workers, 1) else {
        return Err(StormFault::Memory);
    };
    let Some(reader) = readers.pop() else {
        unreachable!()
    };
    let gathered = run_workers(rt, &shared, checked, gate, seats, scripts, rooms);
    close(rt, alloc, &checked, shared, reader, gathered)
}
