//! How a holder goes on: it makes the calls that were left with the next tickets, at most 64 of them, each by the seat
//! that left it and in the order of the tickets.
ghost use Rattle.std.specs.Prelude.{◌≡◌, ◌+◌, ◌%◌, ◌^◌, IfSome};
ghost use Rattle.std.specs.Int.RustNames.{bit_or};
ghost use Rattle.call_queue.specs.Tokens.{IsTaken};
ghost use Rattle.call_queue.specs.Turns.{IsHanded, EndsTurn};

use crate::calling::Calling;
use crate::queue::CallQueue;
use crate::signs::{Behind, Shown};
use crate::tray::{Serving, Tray};
use crate::turns::Turns;
use crate::waking::WakesDue;
use std::sync::Wait;
use ticket_lock::{Held, Journal, Seat, Ticket};

// How many calls of others a holder makes.
const MOST_CALLS: u32 = 64;

// A ticket and a call that were taken up from the tray of a seat, which is to be answered.
struct Taken<'a, T: Journal, C: Calling<T>> {
    tray: &'a Tray<Turns<T, C>>,
    number: u32,
    ticket: Ticket<T>,
    call: C::Call,
    serving: Serving<Turns<T, C>>,
}

impl<T: Journal, C: Calling<T>> CallQueue<T, C> {
    // Makes a call by the seat that holds, and leaves. Calls of seats that waited are made here, with a handle of
    // another type than theirs: so the compiler has two functions, and each is put into the one place that calls it.
    #[inline(never)]
    fn turn<R: Wait>(
        &self,
        rt: &R,
        held: Held<T>,
        value: T,
        call: C::Call,
    ) -> (Seat<T>, C::Reply, Behind)
        requires own { held.lock ≡ self.now }
        requires handed { IsHanded T.head T.entries held value }
        ensures ended { EndsTurn T.stamp T.head T.entries C.made call result.1 held value result.0 }
        ensures behind { result.2.ticket ≡ (held.ticket + 1) % 2 ^ 64 }
    {
        let mut value = value;
        let reply = C::make(&rt, &held, &mut value, call);
        let (seat, behind) = self.serve(held, value);
        (seat, reply, behind)
    }

    // Makes a call by the seat that holds, which had to wait, and leaves. Then it makes those that were left behind it.
    pub(crate) fn turn_and_go_on<R: Wait>(
        &self,
        rt: &R,
        held: Held<T>,
        value: T,
        call: C::Call,
    ) -> (Seat<T>, C::Reply)
        requires own { held.lock ≡ self.now }
        requires handed { IsHanded T.head T.entries held value }
        ensures ended { EndsTurn T.stamp T.head T.entries C.made call result.1 held value result.0 }
    {
        let (back, reply, behind) = self.turn(rt, held, value, call);
        if let Some(shown) = self.signs.shown(behind) {
            self.go_on(rt, shown);
        }
        (back, reply)
    }

    // Makes the call of the seat whose sign is up for a ticket that is served, and those behind it. If the call was not
    // left yet, its seat makes it by itself.
    #[inline(never)]
    pub(crate) fn go_on<R: Wait>(&self, rt: &R, shown: Shown) {
        if let Some(taken) = self.take_or_call_up(shown) {
            self.call_for_others(rt, taken);
        }
    }

    // Takes up what the seat that put up this sign left, if that is its ticket, which is served, or calls that seat up.
    fn take_or_call_up(&self, shown: Shown) -> Option<Taken<'_, T, C>>
        ensures taken { IfSome result (λ t. (t.ticket.lock ≡ self.now)
            × IsTaken t.serving t.tray.now (t.ticket, t.call)) }
        ensures next { IfSome result (λ t. t.ticket.ticket % 2 ^ 64 ≡ shown.ticket) }
    {
        let Some(tray) = self.tray(shown.number()) else {
            self.signs.take_down(shown);
            return None;
        };
        match tray.take_up() {
            Ok((left, serving)) => self.keep_or_put_back(shown, tray, left, serving),
            Err(missed) => {
                self.signs.take_down(shown);
                let due = tray.call_up_missed(missed);
                tray.wake(due);
                None
            }
        }
    }

    // Keeps what was taken up, if that is the ticket of this sign. If not, that seat is called up: a holder may have
    // looked meanwhile for what it left with a later ticket.
    fn keep_or_put_back<'a>(
        &'a self,
        shown: Shown,
        tray: &'a Tray<Turns<T, C>>,
        left: (Ticket<T>, C::Call),
        serving: Serving<Turns<T, C>>,
    ) -> Option<Taken<'a, T, C>>
        requires own { left.0.lock ≡ self.now }
        requires taken { IsTaken serving tray.now left }
        ensures taken { IfSome result (λ t. (t.ticket.lock ≡ self.now)
            × IsTaken t.serving t.tray.now (t.ticket, t.call)) }
        ensures next { IfSome result (λ t. t.ticket.ticket % 2 ^ 64 ≡ shown.ticket) }
    {
        let (ticket, call) = left;
        let number = shown.number();
        if ticket.number() != shown.ticket() {
            self.signs.take_down(shown);
            let due = tray.put_back(serving, (ticket, call));
            tray.wake(due);
            return None;
        }
        shown.is_taken_up(&serving);
        Some(Taken {
            tray,
            number,
            ticket,
            call,
            serving,
        })
    }

    // Has the seat that put up this sign, whose ticket is served, take its turn by itself.
    pub(crate) fn call_up(&self, shown: Shown) {
        let number = shown.number();
        self.signs.take_down(shown);
        if let Some(tray) = self.tray(number) {
            let due = tray.call_up();
            tray.wake(due);
        }
    }

    // Puts back what was taken up, whose ticket is served: its seat goes on by itself.
    fn give_back(&self, taken: Taken<'_, T, C>)
        requires taken { IsTaken taken.serving taken.tray.now (taken.ticket, taken.call) }
    {
        let Taken {
            tray,
            number: _,
            ticket,
            call,
            serving,
        } = taken;
        let due = tray.put_back(serving, (ticket, call));
        tray.wake(due);
    }

    // Makes the call that was taken up, whose ticket is served, by its own seat, and answers it: its wake is due then.
    // What was left with the next ticket, if it was.
    fn make_next<'a, R: Wait>(
        &'a self,
        rt: &R,
        taken: Taken<'a, T, C>,
        wakes: &mut WakesDue,
    ) -> Option<Taken<'a, T, C>>
        requires own { taken.ticket.lock ≡ self.now }
        requires taken { IsTaken taken.serving taken.tray.now (taken.ticket, taken.call) }
        ensures taken { IfSome result (λ t. (t.ticket.lock ≡ self.now)
            × IsTaken t.serving t.tray.now (t.ticket, t.call)) }
        ensures next { IfSome result (λ t.
            t.ticket.ticket % 2 ^ 64 ≡ (taken.entry.ticket.ticket + 1) % 2 ^ 64) }
        ensures due { wakes.new.seats ≡ bit_or wakes.old.seats (2 ^ (taken.entry.number % 64)) }
    {
        let Taken {
            tray,
            number,
            ticket,
            call,
            serving,
        } = taken;
        let (held, value) = self.lock.enter(rt, ticket);
        let (seat, reply, behind) = self.turn(rt, held, value, call);
        let due = tray.answer(serving, (seat, reply));
        wakes.add(due, number);
        let shown = self.signs.shown(behind)?;
        self.take_or_call_up(shown)
    }

    // Makes the calls that were left with the next tickets, at most so many, and then wakes those who sleep.
    fn call_for_others<'a, R: Wait>(&'a self, rt: &R, first: Taken<'a, T, C>)
        requires own { first.ticket.lock ≡ self.now }
        requires taken { IsTaken first.serving first.tray.now (first.ticket, first.call) }
    {
        let mut taken = first;
        let mut wakes = WakesDue::none();
        for _ in 0..MOST_CALLS {
            match self.make_next(rt, taken, &mut wakes) {
                Some(next) => taken = next,
                None => {
                    self.wake(wakes);
                    return;
                }
            }
        }
        self.give_back(taken);
        self.wake(wakes);
    }

    // Wakes each of these seats, if it sleeps.
    fn wake(&self, wakes: WakesDue) {
        let mut wakes = wakes;
        while !wakes.is_none() {
            let waking = wakes.take();
            self.rouse(waking);
        }
        wakes.end();
    }
}
