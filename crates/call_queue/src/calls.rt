//! The calls at a queue. Whoever holds makes its own call, leaves, and goes on with those that were left with the next
//! tickets.
ghost use Rattle.std.specs.Prelude.{◌≡◌, ◌+◌, ◌%◌, ◌^◌, Some, IfOk, IfErr, IfSome};
ghost use Rattle.ticket_lock.specs.Calls.{Draws, Enters, MayLeave, Leaves};
ghost use Rattle.call_queue.specs.Turns.{IsHanded, EndsTurn, TakesTurn, CallsInTurn};

use crate::calling::Calling;
use crate::queue::CallQueue;
use crate::signs::{Behind, Raised};
use crate::tray::Tray;
use crate::turns::Turns;
use crate::waiting::Waiting;
use std::sync::Wait;
use ticket_lock::{Held, Journal, Seat, Ticket};

impl<T: Journal, C: Calling<T>> CallQueue<T, C> {
    /// Draws the next ticket. It takes no memory and waits for nobody.
    pub fn draw(&self, seat: Seat<T>) -> Ticket<T>
        requires own { seat.lock ≡ self.now }
        ensures drawn { Draws T.stamp seat result }
    {
        self.lock.draw(seat)
    }

    /// Enters if the ticket is served, and gives it back if it is not. One look, no memory, no wait.
    pub fn try_enter(&self, ticket: Ticket<T>) -> Result<(Held<T>, T), Ticket<T>>
        requires own { ticket.lock ≡ self.now }
        ensures entered { IfOk result (λ r. Enters T.stamp T.head T.entries ticket r.0 r.1) }
        ensures given_back { IfErr result (λ t. t ≡ record ticket { looks = ticket.looks + 1 }) }
    {
        self.lock.try_enter(ticket)
    }

    /// Looks or sleeps until the ticket is served, and enters. It leaves no ticket: nobody can make a call for it.
    pub fn enter<R: Wait>(&self, rt: &R, ticket: Ticket<T>) -> (Held<T>, T)
        requires own { ticket.lock ≡ self.now }
        ensures entered { Enters T.stamp T.head T.entries ticket result.0 result.1 }
    {
        self.lock.enter(rt, ticket)
    }

    /// Gives the value back and serves the next ticket, whose seat goes on by itself. It takes no memory and waits for
    /// nobody.
    pub fn leave(&self, held: Held<T>, value: T) -> Seat<T>
        requires own { held.lock ≡ self.now }
        requires kept { MayLeave T.stamp T.head T.entries held value }
        ensures left { Leaves T.stamp T.head T.entries held value result }
    {
        let (left, behind) = self.serve(held, value);
        if let Some(shown) = self.signs.shown(behind) {
            self.call_up(shown);
        }
        left
    }

    // Gives the value back and serves the next ticket, which may have been left.
    #[inline(always)]
    pub(crate) fn serve(&self, held: Held<T>, value: T) -> (Seat<T>, Behind)
        requires own { held.lock ≡ self.now }
        requires kept { MayLeave T.stamp T.head T.entries held value }
        ensures left { Leaves T.stamp T.head T.entries held value result.0 }
        ensures behind { result.1.ticket ≡ (held.ticket + 1) % 2 ^ 64 }
    {
        let after = held.stamp().ticket.wrapping_add(1);
        let left = self.lock.leave(held, value);
        let behind = Behind::of(&left, after);
        (left, behind)
    }

    /// Gives the value back and serves the next ticket, as `leave` does. Then it makes the calls that were left with
    /// the next tickets.
    #[inline(always)]
    pub fn leave_and_go_on<R: Wait>(&self, rt: &R, held: Held<T>, value: T) -> Seat<T>
        requires own { held.lock ≡ self.now }
        requires kept { MayLeave T.stamp T.head T.entries held value }
        ensures left { Leaves T.stamp T.head T.entries held value result }
    {
        let (back, behind) = self.serve(held, value);
        if let Some(shown) = self.signs.shown(behind) {
            self.go_on(rt, shown);
        }
        back
    }

    /// Makes a call by this seat: it draws a ticket, and takes its turn with it. Where the ticket is not served at
    /// once, the seat leaves it with the call, and waits: whoever holds makes the call, or serves the ticket.
    #[inline(always)]
    #[tactic(auto, using(crate::proofs::Turned::turn_looked))]
    pub fn call<R: Wait>(&self, rt: &R, seat: Seat<T>, call: C::Call) -> (Seat<T>, C::Reply)
        requires own { seat.lock ≡ self.now }
        ensures called { CallsInTurn T.stamp T.head T.entries C.made call result.1 seat result.0 }
    {
        let number = seat.number();
        let ticket = self.lock.draw(seat);
        match self.lock.try_enter(ticket) {
            Ok((held, value)) => self.call_held(rt, held, value, call),
            Err(ticket) => {
                // Taken apart, so that a call that did not wait need not put its reply into the memory of this one.
                let (seat, reply) = self.leave_call(rt, number, (ticket, call));
                (seat, reply)
            }
        }
    }

    /// Makes a call by the seat that holds, and leaves. Then it makes the calls that were left with the next tickets.
    /// The value is as it was entered.
    #[inline(always)]
    pub fn call_held<R: Wait>(
        &self,
        rt: &R,
        held: Held<T>,
        value: T,
        call: C::Call,
    ) -> (Seat<T>, C::Reply)
        requires own { held.lock ≡ self.now }
        requires handed { IsHanded T.head T.entries held value }
        ensures ended { EndsTurn T.stamp T.head T.entries C.made call result.1 held value result.0 }
    {
        let mut value = value;
        let reply = C::make(rt, &held, &mut value, call);
        let seat = self.leave_and_go_on(rt, held, value);
        (seat, reply)
    }

    /// Leaves a ticket that was not served yet with a call, and waits until the turn was taken, or takes it. It is the
    /// ticket of the seat with this number. It is never put into its caller, which may go on without it.
    #[inline(never)]
    #[tactic(auto, using(crate::proofs::Turned::turn_looked))]
    pub fn leave_call<R: Wait>(
        &self,
        rt: &R,
        number: u32,
        left: (Ticket<T>, C::Call),
    ) -> (Seat<T>, C::Reply)
        requires own { left.0.lock ≡ self.now }
        requires number { number ≡ left.0.number }
        ensures turn { TakesTurn T.stamp T.head T.entries C.made left.1 result.1 left.0 result.0 }
    {
        let (ticket, call) = left;
        let Some(tray) = self.free_tray(number) else {
            return self.take_turn(rt, ticket, call);
        };
        let Some(raised) = self.signs.put_up(&ticket, number) else {
            return self.take_turn(rt, ticket, call);
        };
        let looked = self.lock.try_enter(ticket);
        match looked {
            Ok((held, value)) => {
                raised.is_served(&held);
                self.turn_and_go_on(rt, held, value, call)
            }
            Err(ticket) => self.wait_at(rt, tray, raised, (ticket, call)),
        }
    }

    // Leaves the ticket with the call on this tray, and waits until the turn was taken, or takes it. Its sign was put
    // up, and then the ticket was looked at once more.
    fn wait_at<R: Wait>(
        &self,
        rt: &R,
        tray: &Tray<Turns<T, C>>,
        raised: Raised<T>,
        left: (Ticket<T>, C::Call),
    ) -> (Seat<T>, C::Reply)
        requires own { left.0.lock ≡ self.now }
        requires tray { tray.now.about.value ≡ self.now }
        requires looked { left.0 ≡ record raised.at.value { looks = raised.at.value.looks + 1 } }
        ensures turn { TakesTurn T.stamp T.head T.entries C.made left.1 result.1 left.0 result.0 }
    {
        match tray.leave(left) {
            Ok(waiting) => match self.wait_seen(rt, tray, raised, waiting) {
                Ok(back) => back,
                Err((ticket, call)) => self.take_turn(rt, ticket, call),
            },
            Err((ticket, call)) => {
                let (held, value) = self.lock.enter(rt, ticket);
                raised.is_served(&held);
                self.turn_and_go_on(rt, held, value, call)
            }
        }
    }

    // Waits until what was left is answered, or to be taken back. Where its sign is down by now, no holder looks for
    // it: it is taken back at once, if nobody has taken it up.
    fn wait_seen<R: Wait>(
        &self,
        rt: &R,
        tray: &Tray<Turns<T, C>>,
        raised: Raised<T>,
        waiting: Waiting<Turns<T, C>>,
    ) -> Result<(Seat<T>, C::Reply), (Ticket<T>, C::Call)>
        requires own { waiting.tray ≡ tray.now }
        ensures answered { IfOk result (λ b. IfSome waiting.left
            (λ l. TakesTurn T.stamp T.head T.entries C.made l.1 b.1 l.0 b.0)) }
        ensures left { IfErr result (λ l. waiting.left ≡ Some l) }
    {
        match self.signs.ask(raised, waiting) {
            Ok(unseen) => tray.wait(rt, unseen),
            Err(seen) => tray.withdraw_or_wait(rt, seen),
        }
    }

    // Enters with this ticket, makes the call and leaves.
    fn take_turn<R: Wait>(&self, rt: &R, ticket: Ticket<T>, call: C::Call) -> (Seat<T>, C::Reply)
        requires own { ticket.lock ≡ self.now }
        ensures turn { TakesTurn T.stamp T.head T.entries C.made call result.1 ticket result.0 }
    {
        let (held, value) = self.lock.enter(rt, ticket);
        self.turn_and_go_on(rt, held, value, call)
    }
}
