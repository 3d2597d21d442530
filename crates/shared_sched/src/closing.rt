//! How a shared scheduler is closed.
ghost use Rattle.std.specs.Prelude.{◌≡◌, true, List, [], length, drop};
ghost use Rattle.ticket_lock.specs.Rule.{Every};
ghost use Rattle.ticket_lock.specs.Standing.{seats_of};
ghost use Rattle.sched_calls.specs.declared.reply.Entry.{Entry as Recorded};
ghost use Rattle.sched_desk.specs.Closed.{ClosesTo};
ghost use Rattle.sched_desk.specs.Desk.{published};

use crate::shared::{Desk, Shared};
use map_snapshot::Press;
use sched_desk::close;
use sched_history::Entry;
use ticket_core::MAX_SEATS;
use ticket_lock::Seat;

/// What is kept of the history of a scheduler that was closed, and its press, which has to end.
#[must_use]
pub struct Closed {
    /// The calls that were recorded and not handed over, with their replies, in the order of their tickets: the whole
    /// history where nothing was handed over.
    pub history: Vec<Entry>,
    /// The place of the first of them in the whole history, counted from 0: so many were handed over.
    pub first: u64,
    /// How many calls of the whole history each seat made, by the seats' numbers.
    pub counts: [u64; MAX_SEATS],
    /// What published the history's MAPs.
    pub press: Press,
}

impl Shared {
    /// Takes the scheduler apart, and gives its history and its press. All its seats come back, each once, in any
    /// order.
    pub fn close(self, seats: Vec<Seat<Desk>>) -> Closed
        requires own { Every (λ s. s.lock ≡ self.lock) seats.items }
        requires all { length seats.items ≡ seats_of self.lock }
        ensures closed { (h : List Recorded) × (result.history.items ≡ drop result.first h)
            × ClosesTo self.config self.lock seats.items h result.first result.counts
            × (result.press.list ≡ published h) }
        ensures whole { self.keeps ≡ true → result.first ≡ 0 }
        ensures press { result.press.press ≡ self.press }
        ensures none_waits { result.press.waiting ≡ [] }
    {
        let Shared {
            queue,
            config,
            told: _,
            keeps: _,
        } = self;
        let (recorder, counts) = close(config, queue.into_lock(), seats);
        let (scheduler, press) = Box::into_inner(recorder).into_parts();
        let first = scheduler.handed_over();
        let history = scheduler.into_history();
        Closed {
            history,
            first,
            counts,
            press,
        }
    }
}
