//! A worker: what one thread has of a workplace.
ghost use Rattle.std.specs.Prelude.{◌≡◌, ◌⊎◌, ◌+◌, ◌<◌, ◌↔◌, nat_le, true, false, [], length, None, IfSome, IfOk};
ghost use Rattle.std.specs.Prelude.{IfErr, OnErr, IsErrOf, is_some};
ghost use Rattle.std.specs.Arc.{arc_value};
ghost use Rattle.ticket_core.specs.declared.TheConstants.{MAX_SEATS};
ghost use Rattle.ticket_lock.specs.Rule.{Every};
ghost use Rattle.ticket_lock.specs.Standing.{seats_of};
ghost use Rattle.worker_sched.specs.Worker.{IsFirstWorker, IsFirstOf, Hires, DrawsTicket, TakesTurn, TurnsOver};
ghost use Rattle.worker_sched.specs.Worker.{TurnsForgetting, is_busy, ClosesWorker, StaysOpen};

use crate::drawn::{Drawn, Entered};
use crate::opening::{open, open_without_end};
use crate::turning::{Forget, HandOver};
use crate::workplace::{Desk, Workplace};
use minislots::Checked;
use sched_history::{Call, Entry, Reply, Scheduler, Unrecorded};
use std::alloc::Global;
use std::marker::Model;
use std::sync::Arc;
use ticket_lock::{LockFault, Seat};

mod in_turn;

/// A worker at a workplace: its seat, or the ticket that it drew with it, or the desk in its turn, and the seats of
/// nobody that are with it. It goes with its thread.
#[derive(Drop)]
pub struct Worker {
    place: Arc<Workplace>,
    seat: Option<Seat<Desk>>,
    ticket: Option<Drawn>,
    entered: Option<Entered>,
    spare: Vec<Seat<Desk>>,
}

impl Model for Worker {
    ghost use Rattle.std.specs.Arc.{arc_value};
    ghost use Rattle.worker_sched.specs.Worker.{WorkerState, HasOwn};

    ghost Value = { WorkerState };

    ghost view = { λ w. record {
      place = arc_value w.place;
      seat = w.seat;
      ticket = w.ticket;
      entered = w.entered;
      spare = w.spare.items;
    } };

    ghost invariant = { λ w. HasOwn (arc_value w.place) w.seat w.ticket w.entered w.spare.items };
}

/// How a turn ends.
#[derive(Drop)]
pub enum Turn {
    /// The call was made: its reply, or why it was not recorded.
    Ended(Result<Reply, Unrecorded>),
    /// The ticket is not served yet.
    NotYet,
    /// The worker has no ticket.
    NoTicket,
}

/// Why nobody was hired.
#[derive(Clone, Copy, Debug, PartialEq, Eq, Drop)]
pub enum HireFault {
    /// No seat is with the worker.
    NoSeat,
    /// Memory ran out.
    Memory,
}

/// Why a workplace is not closed.
#[derive(Clone, Copy, Debug, PartialEq, Eq, Drop)]
pub enum CloseFault {
    /// The worker has a ticket, or no seat to draw one with. Nothing changed.
    HasTicket,
    /// Other workers are left. Nothing changed.
    Others,
    /// The worker drew a ticket to close it, which is not served: one was let go with another worker.
    NotServed,
}

// The first worker of a workplace, with which its other seats are. One of them is its own.
fn first(alloc: Global, place: Workplace, seats: Vec<Seat<Desk>>) -> Result<Box<Worker>, LockFault>
    requires own { Every (λ s. s.lock ≡ place.lock) seats.items }
    ensures first { IfOk result (λ w. IsFirstOf place seats.items w.value) }
    ensures memory { IfErr result (λ e. e ≡ LockFault.Memory) }
{
    let mut spare = seats;
    let Ok(place) = Arc::new(alloc, place) else {
        return Err(LockFault::Memory);
    };
    let worker = Worker {
        place,
        seat: spare.pop(),
        ticket: None,
        entered: None,
        spare,
    };
    match Box::new(alloc, worker) {
        Ok(worker) => Ok(worker),
        Err(_) => Err(LockFault::Memory),
    }
}

impl Worker {
    /// Opens a workplace of this configuration with this many seats, 1 to 64, whose scheduler keeps its whole history,
    /// and gives its first worker, with which the other seats are.
    pub fn open(alloc: Global, checked: Checked, seats: usize) -> Result<Box<Worker>, LockFault>
        ensures opened { IfOk result (λ w. IsFirstWorker checked true seats w.value) }
        ensures count { IsErrOf result LockFault.SeatCount ↔ ((seats ≡ 0) ⊎ (MAX_SEATS < seats)) }
    {
        let (place, row) = open(alloc, checked, seats)?;
        first(alloc, place, row)
    }

    /// Opens one whose scheduler hands over what it keeps, or forgets it, as it is asked to, and so goes on without
    /// end.
    pub fn open_without_end(
        alloc: Global,
        checked: Checked,
        seats: usize,
    ) -> Result<Box<Worker>, LockFault>
        ensures opened { IfOk result (λ w. IsFirstWorker checked false seats w.value) }
        ensures count { IsErrOf result LockFault.SeatCount ↔ ((seats ≡ 0) ⊎ (MAX_SEATS < seats)) }
    {
        let (place, row) = open_without_end(alloc, checked, seats)?;
        first(alloc, place, row)
    }

    // A worker at this workplace with no seat.
    fn idle(alloc: Global, place: Arc<Workplace>) -> Result<Box<Worker>, HireFault>
        ensures idle { IfOk result (λ w. w.value ≡ record {
          place = arc_value place;
          seat = None;
          ticket = None;
          entered = None;
          spare = [];
        }) }
        ensures memory { IfErr result (λ e. e ≡ HireFault.Memory) }
    {
        let worker = Worker {
            place,
            seat: None,
            ticket: None,
            entered: None,
            spare: Vec::new(alloc),
        };
        match Box::new(alloc, worker) {
            Ok(worker) => Ok(worker),
            Err(_) => Err(HireFault::Memory),
        }
    }

    // Gives it this seat.
    fn sit(&mut self, seat: Option<Seat<Desk>>)
        requires own { IfSome seat (λ s. s.lock ≡ self.old.place.lock) }
        ensures { self.new ≡ record self.old { seat = seat } }
    {
        self.seat = seat;
    }

    /// Gives one of the seats that are with this worker to a new one.
    pub fn hire(&mut self, alloc: Global) -> Result<Box<Worker>, HireFault>
        ensures hired { IfOk result (λ w. Hires self.old self.new w.value) }
        ensures no_seat { IsErrOf result HireFault.NoSeat ↔ (self.old.spare ≡ []) }
        ensures same { OnErr result (self.new ≡ self.old) }
    {
        if self.spare.is_empty() {
            return Err(HireFault::NoSeat);
        }
        let Ok(place) = Arc::try_clone(&self.place) else {
            return Err(HireFault::Memory);
        };
        let mut hired = Worker::idle(alloc, place)?;
        hired.sit(self.spare.pop());
        Ok(hired)
    }

    /// Draws the next ticket, if the worker has none. It takes no memory and waits for nobody.
    ///
    /// # Safety
    /// Whoever draws lets the worker go only when its turn has ended. No memory is in danger, but with a ticket that is
    /// let go nobody enters any more.
    pub unsafe fn draw(&mut self) -> bool
        ensures { DrawsTicket self.old self.new result }
    {
        if self.is_busy() {
            return false;
        }
        let Some(seat) = self.seat.take() else {
            unreachable!()
        };
        self.ticket = Some(Drawn::of(self.place.lock().draw(seat)));
        true
    }

    /// Makes a call, if the worker's ticket is served: enters, records the call with its reply, and leaves. One look,
    /// no wait.
    pub fn turn(&mut self, call: Call) -> Turn
        ensures { TakesTurn self.old self.new call result }
    {
        let Some(drawn) = self.ticket.take() else {
            return Turn::NoTicket;
        };
        match self.place.turn(drawn.into_ticket(), call) {
            Ok((seat, answer)) => {
                self.seat = Some(seat);
                Turn::Ended(answer)
            }
            Err(ticket) => {
                self.ticket = Some(Drawn::of(ticket));
                Turn::NotYet
            }
        }
    }

    /// Hands over the entries that are kept, if the worker's ticket is served, in exchange for an empty list with room
    /// for as many as the configuration allows. One look, no wait, no memory. A list with less room comes back and
    /// changes nothing, and so does any where the scheduler keeps its whole history: that ends the turn.
    pub fn hand_over(&mut self, room: Vec<Entry>) -> HandOver
        ensures { TurnsOver self.old self.new room result }
    {
        let Some(drawn) = self.ticket.take() else {
            return HandOver::NoTicket(room);
        };
        match self.place.hand_over(drawn.into_ticket(), room) {
            Ok((seat, answer)) => {
                self.seat = Some(seat);
                HandOver::Ended(answer)
            }
            Err((ticket, room)) => {
                self.ticket = Some(Drawn::of(ticket));
                HandOver::NotYet(room)
            }
        }
    }

    /// Lets go of the entries that are kept, if the worker's ticket is served, and says so. One look, no wait, no
    /// memory. A scheduler that keeps its whole history lets nothing go: that ends the turn.
    pub fn forget(&mut self) -> Forget
        ensures { TurnsForgetting self.old self.new result }
    {
        let Some(drawn) = self.ticket.take() else {
            return Forget::NoTicket;
        };
        match self.place.forget(drawn.into_ticket()) {
            Ok((seat, done)) => {
                self.seat = Some(seat);
                Forget::Ended(done)
            }
            Err(ticket) => {
                self.ticket = Some(Drawn::of(ticket));
                Forget::NotYet
            }
        }
    }

    /// Whether the worker has a ticket, or no seat to draw one with.
    pub fn is_busy(&self) -> bool
        ensures { result ≡ is_busy self.now }
    {
        self.ticket.is_some() || self.seat.is_none()
    }

    /// Whether the worker is in its turn.
    pub fn is_in_turn(&self) -> bool
        ensures { result ≡ is_some self.now.entered }
    {
        self.entered.is_some()
    }

    /// Whether the worker has a ticket.
    pub fn has_ticket(&self) -> bool
        ensures { result ≡ is_some self.now.ticket }
    {
        self.ticket.is_some()
    }

    /// The configuration of its workplace.
    pub fn config(&self) -> Checked
        ensures { result ≡ self.now.place.config }
    {
        self.place.config()
    }

    // Whether all other seats are with a worker that has its own.
    fn has_all_seats(&self) -> bool
        ensures { result ≡ nat_le (seats_of self.now.place.lock) (length self.now.spare + 1) }
    {
        self.place.seats() <= self.spare.len() + 1
    }

    /// Closes the workplace, where this is its last worker and has no ticket: draws one, enters, and takes the
    /// scheduler out, in the memory that it has. It takes no memory and waits for nobody. That others are left is
    /// answered only where seats are not with this worker; that no other is left at a close is counted, and no clause
    /// tells of it.
    pub fn close(&mut self) -> Result<Box<Scheduler>, CloseFault>
        ensures closed { IfOk result (λ b. ClosesWorker self.old self.new b.value) }
        ensures stays { IfErr result (StaysOpen self.old self.new) }
    {
        if self.is_busy() {
            return Err(CloseFault::HasTicket);
        }
        if !self.has_all_seats() && Arc::strong_count(&self.place) != 1 {
            return Err(CloseFault::Others);
        }
        let Some(seat) = self.seat.take() else {
            unreachable!()
        };
        match self.place.take_out(seat) {
            Ok(scheduler) => Ok(scheduler),
            Err(ticket) => {
                self.ticket = Some(Drawn::of(ticket));
                Err(CloseFault::NotServed)
            }
        }
    }
}
