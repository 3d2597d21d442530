//! The scheduler that threads share, and its calls.
ghost use Rattle.std.specs.Prelude.{◌≡◌};
ghost use Rattle.sched_desk.specs.Desk.{IsDeskLock, HasPress};
ghost use Rattle.sched_desk.specs.Calls.{IsEntered, AnswersHeld};
ghost use Rattle.sched_desk.specs.Handing.{HandsOverHeld};
ghost use Rattle.shared_sched.specs.Calls.{AnswersCall, HandsOver};

use crate::calling::Calls;
use call_queue::{CallQueue, Calling};
use map_snapshot::Told;
use minislots::Checked;
use sched_desk::Recorder;
use sched_history::{Call, Entry, HandedOver, Reply, Unrecorded};
use std::marker::Model;
use std::sync::Wait;
use ticket_lock::{Held, Seat, TicketLock};

/// The desk of a scheduler with its press: what is published is the encodings of the history's MAPs, in their order.
pub type Desk = sched_desk::Desk<Recorder>;

/// A scheduler under a ticket lock. Threads share it by a reference, each with a seat of its own. It
/// has no `Drop`, so it has to be closed.
#[must_use]
pub struct Shared {
    pub(crate) queue: CallQueue<Desk, Calls>,
    // What clauses name: the desk has the same configuration, and the press that told this.
    pub(crate) config: Checked,
    pub(crate) told: Told,
    pub(crate) keeps: bool,
}

// Clauses see the configuration, which press it has, whether the desk keeps its whole history, and the lock round it.
impl Model for Shared {
    ghost use Rattle.sched_desk.specs.Desk.{SharedDesk, IsDeskLock, HasPress};

    ghost Value = { SharedDesk };

    ghost view = { λ s. record { config = s.config; press = s.told.press; keeps = s.keeps; lock = s.queue } };

    ghost invariant = { λ s. IsDeskLock s.config s.queue
        × HasPress s.config s.told.press s.keeps s.queue };
}

impl Shared {
    /// The lock round the desk, for callers who draw and enter by themselves. From then on no seat leaves its calls to
    /// others.
    pub fn lock(&self) -> &TicketLock<Desk>
        ensures lock { result.now ≡ self.now.lock }
        ensures desk { IsDeskLock self.now.config self.now.lock }
        ensures press { HasPress self.now.config self.now.press self.now.keeps self.now.lock }
    {
        self.queue.lock()
    }

    /// Its configuration.
    pub fn config(&self) -> &Checked
        ensures { result.now ≡ self.now.config }
    {
        &self.config
    }

    /// Makes a call by this seat: it draws a ticket, waits until it is served, and records the call with its reply.
    /// Where the ticket is not served at once, whoever holds may take this turn, as any seat that holds may take the
    /// turns of up to 64 that wait behind it. The entry waits, and so may a build, for readers. A call that is not
    /// recorded changes nothing: one where the history is full, and one for which memory ran out.
    pub fn call<R: Wait>(
        &self,
        rt: &R,
        seat: Seat<Desk>,
        call: Call,
    ) -> (Seat<Desk>, Result<Reply, Unrecorded>)
        requires own { seat.lock ≡ self.now.lock }
        ensures answered { AnswersCall self.now.config seat call result.0 result.1 }
    {
        let number = seat.number();
        let ticket = self.queue.draw(seat);
        match self.queue.try_enter(ticket) {
            Ok((held, desk)) => self.call_held(rt, held, desk, call),
            Err(ticket) => {
                // Taken apart, so that a call that did not wait need not put its reply into the memory of this one.
                let (seat, answer) = self.queue.leave_call(rt, number, (ticket, call));
                (seat, answer)
            }
        }
    }

    /// Makes a call by the seat that holds the desk, and leaves. The desk is as it was entered. A build that is
    /// recorded is published before it is: it may wait for readers that are in the middle of a read, and nothing else
    /// waits.
    pub fn call_held<R: Wait>(
        &self,
        rt: &R,
        held: Held<Desk>,
        desk: Desk,
        call: Call,
    ) -> (Seat<Desk>, Result<Reply, Unrecorded>)
        requires own { held.lock ≡ self.now.lock }
        requires entered { IsEntered held desk }
        ensures answered { AnswersHeld self.now.config held call result.0 result.1 }
    {
        let mut desk = desk;
        let answer = Calls::make(rt, &held, &mut desk, call);
        let seat = self.queue.leave_and_go_on(rt, held, desk);
        (seat, answer)
    }

    /// Hands over the entries that are kept, with the place of the first in the whole history, by this seat: it draws a
    /// ticket, waits until it is served, and gives them in exchange for an empty list with room for as many as the
    /// configuration allows. It takes no memory. A list with less room comes back and changes nothing, and so does any
    /// where the desk keeps its whole history, as one does that [`open`](crate::open) opened: only
    /// [`open_without_end`](crate::open_without_end) opens one that hands over. The entry waits, and nothing else.
    pub fn hand_over<R: Wait>(
        &self,
        rt: &R,
        seat: Seat<Desk>,
        room: Vec<Entry>,
    ) -> (Seat<Desk>, Result<HandedOver, Vec<Entry>>)
        requires own { seat.lock ≡ self.now.lock }
        ensures given { HandsOver self.now.config self.now.keeps seat room result.0 result.1 }
    {
        let ticket = self.queue.draw(seat);
        let (held, desk) = self.queue.enter(rt, ticket);
        self.hand_over_held(held, desk, room)
    }

    /// Hands over the entries that are kept by the seat that holds the desk, and leaves. The desk is as it was entered.
    /// It waits for nobody.
    pub fn hand_over_held(
        &self,
        held: Held<Desk>,
        desk: Desk,
        room: Vec<Entry>,
    ) -> (Seat<Desk>, Result<HandedOver, Vec<Entry>>)
        requires own { held.lock ≡ self.now.lock }
        requires entered { IsEntered held desk }
        ensures given { HandsOverHeld self.now.config held self.now.keeps room result.0 result.1 }
    {
        let mut desk = desk;
        let answer = desk.hand_over(held.stamp(), room);
        let seat = self.queue.leave(held, desk);
        (seat, answer)
    }
}
