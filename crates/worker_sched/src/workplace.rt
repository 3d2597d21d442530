//! The scheduler that workers share, and its calls.
ghost use Rattle.std.specs.Prelude.{◌≡◌, ◌+◌, true, false, IfOk, IfErr, length};
ghost use Rattle.ticket_lock.specs.Rule.{Every};
ghost use Rattle.ticket_lock.specs.Standing.{seats_of};
ghost use Rattle.sched_desk.specs.Desk.{IsDeskLock, HasPress, machine_seen, no_press};
ghost use Rattle.sched_desk.specs.Calls.{IsEntered, AnswersHeld};
ghost use Rattle.sched_desk.specs.Closed.{ClosesTo};
ghost use Rattle.sched_desk.specs.Handing.{HandsOverHeld, ForgetsHeld, MarksHeld};
ghost use Rattle.worker_sched.specs.Workplace.{AnswersTurn, HandsOverTurn, ForgetsTurn, EndsWith, IsNotServed};
ghost use Rattle.worker_sched.specs.Workplace.{HasEntered};

use crate::closed::Closed;
use crate::drawn::{Entered, let_go};
use minislots::Checked;
use sched_desk::close;
use sched_history::{Call, Entry, HandedOver, Reply, Scheduler, Unrecorded};
use std::marker::Model;
use ticket_lock::{Held, QuietLock, Seat, Ticket};

/// The desk of a scheduler that publishes to nobody.
pub type Desk = sched_desk::Desk<Scheduler>;

/// A scheduler under a ticket lock, which publishes to nobody. Threads share it by a reference, or an `Arc`, each with
/// a seat of its own. One that is not closed goes with its history.
#[must_use]
pub struct Workplace {
    pub(crate) lock: QuietLock<Desk>,
    // What clauses name: the desk has the same configuration.
    pub(crate) config: Checked,
    pub(crate) keeps: bool,
    pub(crate) seats: usize,
}

// Clauses see the configuration, that there is no press, whether the desk keeps its whole history, and the lock round
// it.
impl Model for Workplace {
    ghost use Rattle.sched_desk.specs.Desk.{SharedDesk, IsDeskLock, HasPress, no_press};
    ghost use Rattle.std.specs.Prelude.{◌≡◌};
    ghost use Rattle.ticket_lock.specs.Standing.{seats_of};

    ghost Value = { SharedDesk };

    ghost view = { λ w. record { config = w.config; press = no_press; keeps = w.keeps; lock = w.lock } };

    ghost invariant = { λ w. IsDeskLock w.config w.lock × HasPress w.config no_press w.keeps w.lock
        × (w.seats ≡ seats_of w.lock) };
}

impl Drop for Workplace {
    // A workplace that is not closed goes with its scheduler.
    fn drop(self) {
        let Workplace {
            lock,
            config: _,
            keeps: _,
            seats: _,
        } = self;
        lock.into_lock().discard();
    }
}

impl Workplace {
    /// The lock round the desk, at which a seat draws. It enters by a turn, or by `try_enter`.
    pub fn lock(&self) -> &QuietLock<Desk>
        ensures lock { result.now ≡ self.now.lock }
        ensures desk { IsDeskLock self.now.config self.now.lock }
        ensures press { HasPress self.now.config no_press self.now.keeps self.now.lock }
    {
        &self.lock
    }

    /// Its configuration.
    pub fn config(&self) -> Checked
        ensures { result ≡ self.now.config }
    {
        self.config
    }

    /// How many seats it has.
    pub fn seats(&self) -> usize
        ensures { result ≡ seats_of self.now.lock }
    {
        self.seats
    }

    /// Makes a call if the ticket is served: enters, records the call with its reply, and leaves. If it is not, gives
    /// the ticket back. One look, no wait. A call that is not recorded changes nothing, and ends the turn.
    #[tactic(auto, using(crate::proofs::Turned::turns))]
    pub fn turn(
        &self,
        ticket: Ticket<Desk>,
        call: Call,
    ) -> Result<(Seat<Desk>, Result<Reply, Unrecorded>), Ticket<Desk>>
        requires own { ticket.lock ≡ self.now.lock }
        ensures answered { IfOk result (λ r. AnswersTurn self.now.config ticket call r.0 r.1) }
        ensures given_back { IfErr result (λ t. t ≡ record ticket { looks = ticket.looks + 1 }) }
    {
        let (held, desk) = self.lock.try_enter(ticket)?;
        Ok(self.call_held(held, desk, call))
    }

    /// Makes a call by the seat that holds the desk, and leaves. The desk is as it was entered.
    pub fn call_held(
        &self,
        held: Held<Desk>,
        desk: Desk,
        call: Call,
    ) -> (Seat<Desk>, Result<Reply, Unrecorded>)
        requires own { held.lock ≡ self.now.lock }
        requires entered { IsEntered held desk }
        ensures answered { AnswersHeld self.now.config held call result.0 result.1 }
    {
        let mut desk = desk;
        let answer = desk.call_alone(held.stamp(), call);
        let seat = self.lock.leave(held, desk);
        (seat, answer)
    }

    /// Enters, if the ticket is served: the holder has the desk until it leaves, and nobody else enters. If it is not,
    /// gives the ticket back. One look, no wait.
    pub fn enter(&self, ticket: Ticket<Desk>) -> Result<(Held<Desk>, Desk), Ticket<Desk>>
        requires own { ticket.lock ≡ self.now.lock }
        ensures entered { IfOk result (λ r. HasEntered ticket r.0 × IsEntered r.0 r.1) }
        ensures given_back { IfErr result (λ t. t ≡ record ticket { looks = ticket.looks + 1 }) }
    {
        let (holder, desk) = self.lock.try_enter(ticket)?;
        Ok((holder, desk))
    }

    // The scheduler of the desk that was entered.
    pub(crate) fn look<'a>(&self, entered: &'a Entered) -> &'a Scheduler
        requires own { entered.now.lock ≡ self.now.lock }
        ensures { result.now ≡ machine_seen self.now.config entered.now }
    {
        // That the lock is one round a desk is told on.
        let _round = self.lock();
        entered.scheduler()
    }

    /// Leaves, by the seat that holds the desk, which is as it was entered.
    pub fn leave_held(&self, held: Held<Desk>, desk: Desk) -> Seat<Desk>
        requires own { held.lock ≡ self.now.lock }
        requires entered { IsEntered held desk }
        ensures left { MarksHeld self.now.config held false result }
    {
        // That the history is legal is told on.
        let _kept = desk.scheduler().history();
        self.lock.leave(held, desk)
    }

    /// Hands over the entries that are kept, with the place of the first in the whole history, if the ticket is served,
    /// in exchange for an empty list with room for as many as the configuration allows. If it is not served, gives the
    /// ticket and the list back. One look, no wait, no memory. A list with less room comes back and changes nothing,
    /// and so does any where the desk keeps its whole history: that ends the turn.
    pub fn hand_over(
        &self,
        ticket: Ticket<Desk>,
        room: Vec<Entry>,
    ) -> Result<(Seat<Desk>, Result<HandedOver, Vec<Entry>>), (Ticket<Desk>, Vec<Entry>)>
        requires own { ticket.lock ≡ self.now.lock }
        ensures given { IfOk result (λ r.
            HandsOverTurn self.now.config self.now.keeps ticket room r.0 r.1) }
        ensures given_back { IfErr result (λ r. (r.0 ≡ record ticket { looks = ticket.looks + 1 })
            × (r.1 ≡ room)) }
    {
        match self.lock.try_enter(ticket) {
            Ok((held, desk)) => Ok(self.hand_over_held(held, desk, room)),
            Err(back) => Err((back, room)),
        }
    }

    /// Hands over the entries that are kept by the seat that holds the desk, and leaves. The desk is as it was entered.
    pub fn hand_over_held(
        &self,
        held: Held<Desk>,
        desk: Desk,
        room: Vec<Entry>,
    ) -> (Seat<Desk>, Result<HandedOver, Vec<Entry>>)
        requires own { held.lock ≡ self.now.lock }
        requires entered { IsEntered held desk }
        ensures given { HandsOverHeld self.now.config held self.now.keeps room result.0 result.1 }
    {
        let mut desk = desk;
        let answer = desk.hand_over(held.stamp(), room);
        let seat = self.lock.leave(held, desk);
        (seat, answer)
    }

    /// Lets go of the entries that are kept, if the ticket is served, and says so. If it is not, gives the ticket back.
    /// One look, no wait, no memory. A desk that keeps its whole history lets nothing go: that ends the turn.
    pub fn forget(&self, ticket: Ticket<Desk>) -> Result<(Seat<Desk>, bool), Ticket<Desk>>
        requires own { ticket.lock ≡ self.now.lock }
        ensures forgotten { IfOk result
            (λ r. ForgetsTurn self.now.config self.now.keeps ticket r.0 r.1) }
        ensures given_back { IfErr result (λ t. t ≡ record ticket { looks = ticket.looks + 1 }) }
    {
        let (held, desk) = self.lock.try_enter(ticket)?;
        Ok(self.forget_held(held, desk))
    }

    /// Lets go of the entries that are kept by the seat that holds the desk, and leaves. The desk is as it was entered.
    pub fn forget_held(&self, held: Held<Desk>, desk: Desk) -> (Seat<Desk>, bool)
        requires own { held.lock ≡ self.now.lock }
        requires entered { IsEntered held desk }
        ensures forgotten { ForgetsHeld self.now.config held self.now.keeps result.0 result.1 }
    {
        let mut desk = desk;
        let done = desk.forget(held.stamp());
        let seat = self.lock.leave(held, desk);
        (seat, done)
    }

    // Takes the scheduler out of the workplace for good, if the next ticket is served: after this none is. Else gives
    // the ticket back. One look, no wait, no memory.
    pub(crate) fn take_out(&self, seat: Seat<Desk>) -> Result<Box<Scheduler>, Ticket<Desk>>
        requires own { seat.lock ≡ self.now.lock }
        ensures ended { IfOk result (λ b. EndsWith self.now.config self.now.keeps seat b.value) }
        ensures given_back { IfErr result (IsNotServed seat) }
    {
        let (held, desk) = self.lock.try_enter(self.lock.draw(seat))?;
        let (scheduler, _counts) = desk.into_recorder();
        let _history = scheduler.history();
        let_go(held);
        Ok(scheduler)
    }

    /// Takes the workplace apart, and gives its scheduler. All its seats come back, each once, in any order.
    pub fn close(self, seats: Vec<Seat<Desk>>) -> Closed
        requires own { Every (λ s. s.lock ≡ self.lock) seats.items }
        requires all { length seats.items ≡ seats_of self.lock }
        ensures config { result.scheduler.config ≡ self.config }
        ensures closed { ClosesTo self.config self.lock seats.items result.scheduler.history
            result.scheduler.handed result.counts }
        ensures whole { self.keeps ≡ true → result.scheduler.handed ≡ 0 }
    {
        let Workplace {
            lock,
            config,
            keeps: _,
            seats: _,
        } = self;
        let (scheduler, counts) = close(config, lock.into_lock(), seats);
        Closed {
            scheduler: Box::into_inner(scheduler),
            counts,
        }
    }
}
