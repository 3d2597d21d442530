//! How the lock round a desk is taken apart.
ghost use Rattle.std.specs.Prelude.{◌≡◌, length};
ghost use Rattle.ticket_lock.specs.Rule.{Every};
ghost use Rattle.ticket_lock.specs.Standing.{seats_of};
ghost use Rattle.sched_desk.specs.Closed.{ClosesTo};
ghost use Rattle.sched_desk.specs.Desk.{IsDeskLock, IsHeadOf};

use crate::desk::Desk;
use crate::records::Records;
use minislots::Checked;
use ticket_core::MAX_SEATS;
use ticket_lock::{Seat, TicketLock};

/// Takes the lock round a desk of this configuration apart, and gives the recorder that the desk has, with how many
/// entries of its whole history each seat made, by the seats' numbers. All seats of the lock come back, each once, in
/// any order.
pub fn close<S: Records>(
    checked: Checked,
    lock: TicketLock<Desk<S>>,
    seats: Vec<Seat<Desk<S>>>,
) -> (Box<S>, [u64; MAX_SEATS])
    requires desk { IsDeskLock checked lock }
    requires own { Every (λ s. s.lock ≡ lock) seats.items }
    requires all { length seats.items ≡ seats_of lock }
    ensures closed { ClosesTo checked lock seats.items (S.recording result.0.value).machine.history
        (S.recording result.0.value).machine.handed result.1 }
    ensures config { (S.recording result.0.value).machine.config ≡ checked }
    ensures head { IsHeadOf checked (S.recording result.0.value).press lock }
{
    let (recorder, counts) = lock.close(seats).into_recorder();
    // That the history is legal is told on.
    let _history = recorder.scheduler().history();
    (recorder, counts)
}
