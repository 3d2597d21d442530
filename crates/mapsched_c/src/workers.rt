//! The exports for threads: workers, one for each thread, at one scheduler under the ticket lock.

ghost use Rattle.std.specs.Prelude.{◌≡◌, ◌↔◌, ◌⊎◌, ◌<◌, true, false, IfOk, IsErrOf};
ghost use Rattle.ticket_core.specs.declared.TheConstants.{MAX_SEATS};
ghost use Rattle.worker_sched.specs.Worker.{IsFirstWorker};
ghost use Rattle.mapsched_c.specs.Call.{call_of};
ghost use Rattle.mapsched_c.specs.Config.{config_of};
ghost use Rattle.mapsched_c.specs.Worker.{OpensWorkers, HiresWorker, Draws, Turns, Writes, LeavesPlace, ClosesPlace};
ghost use Rattle.mapsched_c.specs.Worker.{close_status};

use crate::call::PlainCall;
use crate::config::PlainConfig;
use crate::handle::Handle;
use crate::reply::PlainReply;
use crate::status;
use crate::worker_handle::WorkerHandle;
use minislots::Checked;
use sched_history::{Call, Unrecorded};
use std::alloc::Global;
use text_stream::field_number;
use ticket_lock::LockFault;
use worker_sched::{CloseFault, HireFault, Turn, Worker};

// The first worker of a workplace, whose scheduler keeps its whole history or goes on without end.
fn first_worker(
    alloc: Global,
    checked: Checked,
    seats: u32,
    keeps: bool,
) -> Result<Box<Worker>, LockFault>
    ensures opened { IfOk result (λ w. IsFirstWorker checked keeps seats w.value) }
    ensures count { IsErrOf result LockFault.SeatCount ↔ ((seats ≡ 0) ⊎ (MAX_SEATS < seats)) }
{
    if keeps {
        Worker::open(alloc, checked, seats as usize)
    } else {
        Worker::open_without_end(alloc, checked, seats as usize)
    }
}

// Opens a workplace of the one kind or the other.
fn open_workers(
    alloc: Global,
    worker: &mut WorkerHandle,
    config: &PlainConfig,
    seats: u32,
    keeps: bool,
) -> u32
    ensures { OpensWorkers keeps worker.old.post.worker worker.new.post.worker
        (config_of config.now) seats result }
{
    if worker.is_full() {
        return status::FULL;
    }
    let checked = match config.config().check() {
        Ok(checked) => checked,
        Err(fault) => return status::BAD_CONFIG + u32::from(field_number(fault)),
    };
    match first_worker(alloc, checked, seats, keeps) {
        Ok(first) => {
            worker.put(first);
            status::OK
        }
        Err(LockFault::SeatCount) => status::BAD_SEATS,
        Err(LockFault::Memory) => status::OUT_OF_MEMORY,
    }
}

/// Opens a workplace with so many seats, 1 to 64, and puts its first worker into an empty handle. The other seats are
/// with that worker, which hires others. A handle that is full, and a wrong configuration, stay as they are. The
/// scheduler keeps its whole history.
#[unsafe(no_mangle)]
pub extern "C" fn mapsched_open_workers(
    alloc: Global,
    worker: &mut WorkerHandle,
    config: &PlainConfig,
    seats: u32,
) -> u32
    ensures { OpensWorkers true worker.old.post.worker worker.new.post.worker
        (config_of config.now) seats result }
{
    open_workers(alloc, worker, config, seats, true)
}

/// Opens one whose scheduler goes on without end: a worker in its turn can let go of what is kept.
#[unsafe(no_mangle)]
pub extern "C" fn mapsched_open_workers_without_end(
    alloc: Global,
    worker: &mut WorkerHandle,
    config: &PlainConfig,
    seats: u32,
) -> u32
    ensures { OpensWorkers false worker.old.post.worker worker.new.post.worker
        (config_of config.now) seats result }
{
    open_workers(alloc, worker, config, seats, false)
}

/// Gives one of the seats that are with a worker to a new one, in an empty handle.
#[unsafe(no_mangle)]
pub extern "C" fn mapsched_hire(
    alloc: Global,
    worker: &mut WorkerHandle,
    hired: &mut WorkerHandle,
) -> u32
    ensures { HiresWorker worker.old.post.worker worker.new.post.worker
        hired.old.post.worker hired.new.post.worker result }
{
    let Some(mut hiring) = worker.take(alloc) else {
        return status::EMPTY;
    };
    if hired.is_full() {
        worker.put(hiring);
        return status::FULL;
    }
    let answered = match hiring.hire(alloc) {
        Ok(other) => {
            hired.put(other);
            status::OK
        }
        Err(HireFault::NoSeat) => status::NO_SEAT,
        Err(HireFault::Memory) => status::OUT_OF_MEMORY,
    };
    worker.put(hiring);
    answered
}

/// Draws the next ticket, where the worker has none. It waits for nobody.
#[unsafe(no_mangle)]
pub extern "C" fn mapsched_draw(alloc: Global, worker: &mut WorkerHandle) -> u32
    ensures { Draws worker.old.post.worker worker.new.post.worker result }
{
    let Some(mut drawing) = worker.take(alloc) else {
        return status::EMPTY;
    };
    // No export lets a worker with a ticket go.
    let answered = if unsafe { drawing.draw() } {
        status::OK
    } else {
        status::HAS_TICKET
    };
    worker.put(drawing);
    answered
}

// Makes a call in a worker's turn, and writes its reply.
#[tactic(auto, using(crate::proofs::Turned::turned_room))]
fn turn_of(worker: &mut Worker, call: Call, reply: &mut PlainReply) -> u32
    ensures { Turns (Some worker.old) (Some worker.new) (Some call) result reply.old reply.new }
{
    let _cycle = worker.config().cycle();
    match worker.turn(call) {
        Turn::Ended(Ok(answer)) => {
            reply.put(&answer);
            status::OK
        }
        Turn::Ended(Err(Unrecorded::HistoryFull)) => status::HISTORY_FULL,
        Turn::Ended(Err(Unrecorded::Memory)) => status::OUT_OF_MEMORY,
        Turn::NotYet => status::NOT_SERVED,
        Turn::NoTicket => status::NO_TICKET,
    }
}

/// Makes a call, where the worker's ticket is served: answers and records it, with the stamp of its seat and ticket,
/// and writes its reply. One look, no wait. A call that is not recorded ends the turn too.
#[unsafe(no_mangle)]
pub extern "C" fn mapsched_turn(
    alloc: Global,
    worker: &mut WorkerHandle,
    call: &PlainCall,
    reply: &mut PlainReply,
) -> u32
    ensures { Turns worker.old.post.worker worker.new.post.worker
        (call_of call.now) result reply.old reply.new }
{
    let Some(mut turning) = worker.take(alloc) else {
        return status::EMPTY;
    };
    let answered = match call.call() {
        Some(call) => turn_of(&mut turning, call, reply),
        None => status::BAD_CALL,
    };
    worker.put(turning);
    answered
}

/// Lets a worker go, with the seats that are with it, and leaves its handle empty. One with a ticket stays, and so does
/// one in its turn.
#[unsafe(no_mangle)]
pub extern "C" fn mapsched_leave(alloc: Global, worker: &mut WorkerHandle) -> u32
    ensures { LeavesPlace worker.old.post.worker worker.new.post.worker result }
{
    let Some(leaving) = worker.take(alloc) else {
        return status::EMPTY;
    };
    if leaving.has_ticket() || leaving.is_in_turn() {
        worker.put(leaving);
        return status::HAS_TICKET;
    }
    status::OK
}

// The status of a workplace that is not closed.
fn status_of(fault: CloseFault) -> u32
    ensures { result ≡ close_status fault }
{
    match fault {
        CloseFault::HasTicket => status::HAS_TICKET,
        CloseFault::Others => status::WORKERS_OUT,
        CloseFault::NotServed => status::NOT_SERVED,
    }
}

/// Closes the workplace of its last worker, whose handle is empty then, and puts its scheduler into an empty handle.
#[unsafe(no_mangle)]
pub extern "C" fn mapsched_close_workers(
    alloc: Global,
    worker: &mut WorkerHandle,
    scheduler: &mut Handle,
) -> u32
    ensures { ClosesPlace worker.old.post.worker worker.new.post.worker
        scheduler.old.place.machine scheduler.new.place.machine result }
{
    let Some(mut closing) = worker.take(alloc) else {
        return status::EMPTY;
    };
    if scheduler.is_full() {
        worker.put(closing);
        return status::FULL;
    }
    match closing.close() {
        Ok(taken) => {
            scheduler.put(taken);
            status::OK
        }
        Err(fault) => {
            worker.put(closing);
            status_of(fault)
        }
    }
}
