//! How a shared scheduler is opened.
ghost use Rattle.std.specs.Prelude.{◌≡◌, ◌⊎◌, ◌<◌, ◌≤◌, ◌↔◌, true, false, [], replicate, IfOk, IfErr, IsErrOf};
ghost use Rattle.map_snapshot.specs.declared.opening.TheConstants.{MAX_READERS};
ghost use Rattle.map_snapshot.specs.Maps.{unread};
ghost use Rattle.ticket_core.specs.declared.TheConstants.{MAX_SEATS};
ghost use Rattle.ticket_lock.specs.Calls.{Opens};
ghost use Rattle.sched_desk.specs.Desk.{fixed_of, events_of, empty_desk, desk_of};

use crate::fault::OpenFault;
use crate::shared::{Desk, Shared};
use call_queue::CallQueue;
use map_snapshot::{MAX_READERS, Press, Reader, Whole, open_press};
use minislots::Checked;
use sched_desk::Recorder;
use sched_history::Scheduler;
use std::alloc::Global;
use std::sync::Wait;
use ticket_core::MAX_SEATS;
use ticket_lock::{Seat, TicketLock};

// A lock round a desk with this scheduler and its press. After a fault they come back.
fn lay(
    alloc: Global,
    recorder: Recorder,
    seats: usize,
    keeps: bool,
) -> Result<(TicketLock<Desk>, Vec<Seat<Desk>>), Recorder>
    requires empty { (recorder.machine.history ≡ []) × (recorder.machine.handed ≡ 0) }
    requires count { (1 ≤ seats) × (seats ≤ MAX_SEATS) }
    ensures opened { IfOk result (λ r. Opens fixed_of events_of
        (empty_desk recorder.machine.config recorder.press keeps) seats 0 r.0 r.1.items) }
    ensures given_back { IfErr result (λ r. r ≡ recorder) }
{
    let desk = Desk::new(alloc, recorder, keeps)?;
    match TicketLock::open(alloc, desk, seats, 0) {
        Ok(opened) => Ok(opened),
        Err((_, desk)) => {
            let (recorder, _counts) = desk.into_recorder();
            Err(Box::into_inner(recorder))
        }
    }
}

// Shares a scheduler that has recorded no call, with a press that has published nothing. After a fault the press has
// ended, and nothing is published for good.
fn share<R: Wait>(
    rt: &R,
    alloc: Global,
    checked: Checked,
    scheduler: Scheduler,
    press: Press,
    seats: usize,
    keeps: bool,
) -> Result<(Shared, Vec<Seat<Desk>>), Whole>
    requires new { scheduler ≡ record { config = checked; history = []; handed = 0 } }
    requires unread { (press.list ≡ []) × (press.waiting ≡ []) }
    requires count { (1 ≤ seats) × (seats ≤ MAX_SEATS) }
    ensures config { IfOk result (λ r. r.0.config ≡ checked) }
    ensures press { IfOk result (λ r. r.0.press ≡ press.press) }
    ensures keeps { IfOk result (λ r. r.0.keeps ≡ keeps) }
    ensures opened { IfOk result (λ r.
        Opens fixed_of events_of
        (empty_desk checked press.press keeps) seats 0 r.0.lock r.1.items) }
    ensures ended { IfErr result (λ whole. whole ≡ unread press.press) }
{
    let mut recorder = Recorder::new(scheduler, press);
    let told = recorder.tell();
    match lay(alloc, recorder, seats, keeps) {
        Ok((lock, row)) => {
            let shared = Shared {
                queue: CallQueue::of(alloc, lock, seats),
                config: checked,
                told,
                keeps,
            };
            Ok((shared, row))
        }
        Err(recorder) => Err(recorder.end(rt)),
    }
}

// Opens a scheduler whose desk keeps its whole history, or hands over as it is asked to.
fn open_with<R: Wait>(
    rt: &R,
    alloc: Global,
    checked: Checked,
    seats: usize,
    readers: usize,
    keeps: bool,
) -> Result<(Shared, Vec<Seat<Desk>>, Vec<Reader>), OpenFault>
    ensures config { IfOk result (λ r. r.0.config ≡ checked) }
    ensures keeps { IfOk result (λ r. r.0.keeps ≡ keeps) }
    ensures opened { IfOk result (λ r.
        Opens fixed_of events_of (empty_desk checked r.0.press keeps) seats 0 r.0.lock r.1.items) }
    ensures readers { IfOk result (λ r. r.2.items ≡ replicate readers (unread r.0.press)) }
    ensures count { IsErrOf result OpenFault.SeatCount ↔ ((seats ≡ 0) ⊎ (MAX_SEATS < seats)) }
    ensures readers_count { IsErrOf result OpenFault.ReaderCount
        ↔ ((1 ≤ seats) × (seats ≤ MAX_SEATS) × (MAX_READERS < readers)) }
{
    if seats == 0 || seats > MAX_SEATS {
        return Err(OpenFault::SeatCount);
    }
    if readers > MAX_READERS {
        return Err(OpenFault::ReaderCount);
    }
    let Ok(scheduler) = Scheduler::open(alloc, checked) else {
        return Err(OpenFault::Memory);
    };
    let Ok((press, readers)) = open_press(rt, alloc, readers) else {
        return Err(OpenFault::Memory);
    };
    match share(rt, alloc, checked, scheduler, press, seats, keeps) {
        Ok((shared, row)) => Ok((shared, row, readers)),
        Err(_whole) => Err(OpenFault::Memory),
    }
}

/// Opens a scheduler of this configuration with this many seats, 1 to 64, and readers, at most 16, and an empty
/// history, all of which it keeps. The seats are numbered by their places in the vector, and the first ticket is 0. The
/// readers are of the scheduler's press, and have read nothing. After a fault nothing is left open. It takes a handle
/// that waits for the press that it opens, and that it ends after a fault: there is no reader yet for whom either could
/// wait. It hands nothing over: [`Shared::hand_over`] gives each list back.
pub fn open<R: Wait>(
    rt: &R,
    alloc: Global,
    checked: Checked,
    seats: usize,
    readers: usize,
) -> Result<(Shared, Vec<Seat<Desk>>, Vec<Reader>), OpenFault>
    ensures config { IfOk result (λ r. r.0.config ≡ checked) }
    ensures keeps { IfOk result (λ r. r.0.keeps ≡ true) }
    ensures opened { IfOk result (λ r.
        Opens fixed_of events_of (empty_desk checked r.0.press true) seats 0 r.0.lock r.1.items) }
    ensures readers { IfOk result (λ r. r.2.items ≡ replicate readers (unread r.0.press)) }
    ensures count { IsErrOf result OpenFault.SeatCount ↔ ((seats ≡ 0) ⊎ (MAX_SEATS < seats)) }
    ensures readers_count { IsErrOf result OpenFault.ReaderCount
        ↔ ((1 ≤ seats) × (seats ≤ MAX_SEATS) × (MAX_READERS < readers)) }
{
    open_with(rt, alloc, checked, seats, readers, true)
}

/// Opens one that hands over what it keeps as it is asked to, and so goes on without end.
pub fn open_without_end<R: Wait>(
    rt: &R,
    alloc: Global,
    checked: Checked,
    seats: usize,
    readers: usize,
) -> Result<(Shared, Vec<Seat<Desk>>, Vec<Reader>), OpenFault>
    ensures config { IfOk result (λ r. r.0.config ≡ checked) }
    ensures keeps { IfOk result (λ r. r.0.keeps ≡ false) }
    ensures opened { IfOk result (λ r.
        Opens fixed_of events_of (empty_desk checked r.0.press false) seats 0 r.0.lock r.1.items) }
    ensures readers { IfOk result (λ r. r.2.items ≡ replicate readers (unread r.0.press)) }
    ensures count { IsErrOf result OpenFault.SeatCount ↔ ((seats ≡ 0) ⊎ (MAX_SEATS < seats)) }
    ensures readers_count { IsErrOf result OpenFault.ReaderCount
        ↔ ((1 ≤ seats) × (seats ≤ MAX_SEATS) × (MAX_READERS < readers)) }
{
    open_with(rt, alloc, checked, seats, readers, false)
}
