//! How a workplace is opened.
ghost use Rattle.std.specs.Prelude.{◌≡◌, ◌⊎◌, ◌<◌, ◌↔◌, true, false, IfOk, IsErrOf};
ghost use Rattle.ticket_core.specs.declared.TheConstants.{MAX_SEATS};
ghost use Rattle.ticket_lock.specs.Calls.{Opens};
ghost use Rattle.sched_desk.specs.Desk.{fixed_of, events_of, empty_desk, no_press};

use crate::workplace::{Desk, Workplace};
use minislots::Checked;
use sched_history::Scheduler;
use std::alloc::Global;
use ticket_core::MAX_SEATS;
use ticket_lock::{LockFault, QuietLock, Seat, TicketLock};

// Opens a scheduler whose desk keeps its whole history, or hands over as it is asked to.
fn open_with(
    alloc: Global,
    checked: Checked,
    seats: usize,
    keeps: bool,
) -> Result<(Workplace, Vec<Seat<Desk>>), LockFault>
    ensures config { IfOk result (λ r. r.0.config ≡ checked) }
    ensures keeps { IfOk result (λ r. r.0.keeps ≡ keeps) }
    ensures opened { IfOk result (λ r.
        Opens fixed_of events_of (empty_desk checked no_press keeps) seats 0 r.0.lock r.1.items) }
    ensures count { IsErrOf result LockFault.SeatCount ↔ ((seats ≡ 0) ⊎ (MAX_SEATS < seats)) }
{
    if seats == 0 || seats > MAX_SEATS {
        return Err(LockFault::SeatCount);
    }
    let Ok(scheduler) = Scheduler::open(alloc, checked) else {
        return Err(LockFault::Memory);
    };
    let Ok(desk) = Desk::new(alloc, scheduler, keeps) else {
        return Err(LockFault::Memory);
    };
    let Ok((lock, row)) = TicketLock::open(alloc, desk, seats, 0) else {
        return Err(LockFault::Memory);
    };
    let workplace = Workplace {
        lock: QuietLock::of(lock),
        config: checked,
        keeps,
        seats,
    };
    Ok((workplace, row))
}

/// Opens a scheduler of this configuration with this many seats, 1 to 64, and an empty history, all of which it keeps.
/// The seats are numbered by their places in the vector, and the first ticket is 0. After a fault nothing is left open.
pub fn open(
    alloc: Global,
    checked: Checked,
    seats: usize,
) -> Result<(Workplace, Vec<Seat<Desk>>), LockFault>
    ensures config { IfOk result (λ r. r.0.config ≡ checked) }
    ensures keeps { IfOk result (λ r. r.0.keeps ≡ true) }
    ensures opened { IfOk result (λ r.
        Opens fixed_of events_of (empty_desk checked no_press true) seats 0 r.0.lock r.1.items) }
    ensures count { IsErrOf result LockFault.SeatCount ↔ ((seats ≡ 0) ⊎ (MAX_SEATS < seats)) }
{
    open_with(alloc, checked, seats, true)
}

/// Opens one that hands over what it keeps, or forgets it, as it is asked to, and so goes on without end.
pub fn open_without_end(
    alloc: Global,
    checked: Checked,
    seats: usize,
) -> Result<(Workplace, Vec<Seat<Desk>>), LockFault>
    ensures config { IfOk result (λ r. r.0.config ≡ checked) }
    ensures keeps { IfOk result (λ r. r.0.keeps ≡ false) }
    ensures opened { IfOk result (λ r.
        Opens fixed_of events_of (empty_desk checked no_press false) seats 0 r.0.lock r.1.items) }
    ensures count { IsErrOf result LockFault.SeatCount ↔ ((seats ≡ 0) ⊎ (MAX_SEATS < seats)) }
{
    open_with(alloc, checked, seats, false)
}
