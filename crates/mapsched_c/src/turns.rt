//! The exports of a worker's turn: it begins, the scheduler is looked at, and it ends, with what is kept let go or not.

ghost use Rattle.std.specs.Prelude.{◌≡◌, Some};
ghost use Rattle.mapsched_c.specs.declared.status.TheConstants.{OK};
ghost use Rattle.mapsched_c.specs.Entry.{count_over, entry_at, entry_over, entry_status, handed_over};
ghost use Rattle.mapsched_c.specs.Turn.{seen_by, look_status, Begins, LooksAtLines, EndsForgetting, Ends};

use crate::entry::PlainEntry;
use crate::exports::put_entry_at;
use crate::journal::give_lines;
use crate::status;
use crate::worker_handle::WorkerHandle;
use std::alloc::Global;
use worker_sched::Begin;

/// Begins a worker's turn, where its ticket is served. Nobody else has a turn until this one ends. One look, no wait.
#[unsafe(no_mangle)]
pub extern "C" fn mapsched_begin(alloc: Global, worker: &mut WorkerHandle) -> u32
    ensures { Begins worker.old.post.worker worker.new.post.worker result }
{
    let Some(mut beginning) = worker.take(alloc) else {
        return status::EMPTY;
    };
    let answered = match beginning.begin() {
        Begin::Entered => status::OK,
        Begin::NotYet => status::NOT_SERVED,
        Begin::NoTicket => status::NO_TICKET,
    };
    worker.put(beginning);
    answered
}

/// Tells a worker in its turn how many calls were recorded: the length of the whole history.
#[unsafe(no_mangle)]
pub extern "C" fn mapsched_turn_count(
    alloc: Global,
    worker: &mut WorkerHandle,
    count: &mut usize,
) -> u32
    ensures status { result ≡ look_status worker.old.post.worker (λ m. OK) }
    ensures count { count.new ≡ count_over count.old (seen_by worker.old.post.worker) }
    ensures same { worker.new.post.worker ≡ worker.old.post.worker }
{
    let Some(looking) = worker.take(alloc) else {
        return status::EMPTY;
    };
    let answered = match looking.scheduler() {
        Some(scheduler) => {
            *count = scheduler.recorded() as usize;
            status::OK
        }
        None => status::NO_TURN,
    };
    worker.put(looking);
    answered
}

/// Tells a worker in its turn the place of the first entry that is kept, in the whole history and from 0.
#[unsafe(no_mangle)]
pub extern "C" fn mapsched_turn_kept_from(
    alloc: Global,
    worker: &mut WorkerHandle,
    place: &mut usize,
) -> u32
    ensures status { result ≡ look_status worker.old.post.worker (λ m. OK) }
    ensures place { place.new ≡ handed_over place.old (seen_by worker.old.post.worker) }
    ensures same { worker.new.post.worker ≡ worker.old.post.worker }
{
    let Some(looking) = worker.take(alloc) else {
        return status::EMPTY;
    };
    let answered = match looking.scheduler() {
        Some(scheduler) => {
            *place = scheduler.handed_over() as usize;
            status::OK
        }
        None => status::NO_TURN,
    };
    worker.put(looking);
    answered
}

/// Writes to a worker in its turn the entry at this place of the whole history, from 0, where it is kept.
#[unsafe(no_mangle)]
pub extern "C" fn mapsched_turn_entry(
    alloc: Global,
    worker: &mut WorkerHandle,
    place: usize,
    entry: &mut PlainEntry,
) -> u32
    ensures status { result
        ≡ look_status worker.old.post.worker (λ m. entry_status (Some m) place) }
    ensures entry { entry.new
        ≡ entry_over entry.old (entry_at (seen_by worker.old.post.worker) place) }
    ensures same { worker.new.post.worker ≡ worker.old.post.worker }
{
    let Some(looking) = worker.take(alloc) else {
        return status::EMPTY;
    };
    let answered = match looking.scheduler() {
        Some(scheduler) => put_entry_at(scheduler, place, entry),
        None => status::NO_TURN,
    };
    worker.put(looking);
    answered
}

/// Writes to a worker in its turn the entries that are kept, as `mapsched_lines` does.
#[unsafe(no_mangle)]
pub extern "C" fn mapsched_turn_lines(
    alloc: Global,
    worker: &mut WorkerHandle,
    room: &mut [u8],
    length: &mut usize,
) -> u32
    ensures text { LooksAtLines worker.old.post.worker result
        room.old room.new length.old length.new }
    ensures same { worker.new.post.worker ≡ worker.old.post.worker }
{
    let Some(looking) = worker.take(alloc) else {
        return status::EMPTY;
    };
    let answered = match looking.scheduler() {
        Some(scheduler) => give_lines(alloc, scheduler, room, length),
        None => status::NO_TURN,
    };
    worker.put(looking);
    answered
}

/// Lets go of the entries that are kept, and ends the turn. A scheduler that keeps its whole history lets nothing go.
#[unsafe(no_mangle)]
pub extern "C" fn mapsched_turn_forget(alloc: Global, worker: &mut WorkerHandle) -> u32
    ensures { EndsForgetting worker.old.post.worker worker.new.post.worker result }
{
    let Some(mut ending) = worker.take(alloc) else {
        return status::EMPTY;
    };
    let answered = match ending.end_forgetting() {
        Some(true) => status::OK,
        Some(false) => status::KEEPS_ALL,
        None => status::NO_TURN,
    };
    worker.put(ending);
    answered
}

/// Ends the turn. Nothing else changes.
#[unsafe(no_mangle)]
pub extern "C" fn mapsched_end(alloc: Global, worker: &mut WorkerHandle) -> u32
    ensures { Ends worker.old.post.worker worker.new.post.worker result }
{
    let Some(mut ending) = worker.take(alloc) else {
        return status::EMPTY;
    };
    let answered = if ending.end() {
        status::OK
    } else {
        status::NO_TURN
    };
    worker.put(ending);
    answered
}
