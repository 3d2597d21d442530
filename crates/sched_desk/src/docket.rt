//! What a desk notes of its turns.
ghost use Rattle.std.specs.Prelude.{◌≡◌, ◌<◌, ◌++◌, ℕ, [], ◌∷◌, List, length, slice_index};
ghost use Rattle.std.specs.Borrow.{ftrue};
ghost use Rattle.std.specs.Coded.{coded_list};
ghost use Rattle.sched_calls.specs.declared.reply.TheConstants.{MAX_WHOLE_HISTORY};
ghost use Rattle.sched_desk.specs.contracts.event.Event.{the_row};
ghost use Rattle.sched_desk.specs.declared.event.Event.{Event as Added};
ghost use Rattle.sched_desk.specs.declared.event.Event.TheVariants.{Recorded, Marked};
ghost use Rattle.ticket_core.specs.declared.TheConstants.{MAX_SEATS};
ghost use Rattle.sched_desk.specs.Closed.{IsCounted, counted_by};
ghost use Rattle.sched_desk.specs.Events.{history_in};

use minislots::Stamp;
use sched_history::{Call, Reply};
use std::marker::Model;
use ticket_core::MAX_SEATS;

// Events in order. They stand in proofs alone, so they take no memory.
#[derive(Drop)]
struct EventList {
    ghost items: { List Added } by { coded_list the_row.coded },
}

impl Model for EventList {
    ghost also_owns = { λ _. ftrue };
}

// A struct with `also_owns` has it not by itself. This one owns nothing.
unsafe impl Send for EventList {}

impl EventList {
    // No events.
    fn none() -> EventList
        ensures { result.items ≡ [] }
    {
        EventList {}
    }

    // The events, and that a call was recorded.
    fn and_recorded(_before: &EventList, _stamp: &Stamp, _call: &Call, _reply: &Reply) -> EventList
        ensures { result.items ≡ _before.now.items
            ++ Recorded (record { stamp = _stamp.now; call = _call.now; reply = _reply.now }) ∷ [] }
    {
        EventList {}
    }

    // The events with a mark.
    fn and_marked(_before: &EventList, _stamp: &Stamp) -> EventList
        ensures { result.items ≡ _before.now.items ++ Marked _stamp.now ∷ [] }
    {
        EventList {}
    }
}

// Counts one entry of the seat with this number, if a lock may have it.
fn count_entry(counts: &mut [u64; MAX_SEATS], seat: u32)
    requires few { (number : ℕ) → number < MAX_SEATS
        → slice_index counts.old number < MAX_WHOLE_HISTORY }
    ensures counted { counts.new ≡ counted_by seat counts.old }
{
    let place = seat as usize;
    if place < MAX_SEATS {
        counts[place] += 1;
    }
}

/// What a desk notes of its turns: whether it keeps its whole history, what they have added to the list of the lock, in
/// proofs alone, and how many entries of the history each seat made, by the seats' numbers.
#[derive(Drop)]
pub struct Docket {
    keeps: bool,
    counts: [u64; MAX_SEATS],
    events: EventList,
}

impl Model for Docket {
    ghost use Rattle.sched_desk.specs.Closed.{IsCounted};
    ghost use Rattle.sched_desk.specs.Desk.{Docketed};
    ghost use Rattle.sched_desk.specs.Events.{history_in};

    ghost Value = { Docketed };

    ghost view = { λ d. record { keeps = d.keeps; events = d.events.items } };

    ghost invariant = { λ d. IsCounted d.counts (history_in d.events.items) };
}

impl Docket {
    // That of a desk with no turn yet.
    pub(crate) fn new(keeps: bool) -> Docket
        ensures { result ≡ record { keeps = keeps; events = [] } }
    {
        Docket {
            keeps,
            counts: [0; MAX_SEATS],
            events: EventList::none(),
        }
    }

    // Whether the desk keeps its whole history.
    pub(crate) fn keeps(&self) -> bool
        ensures { result ≡ self.now.keeps }
    {
        self.keeps
    }

    // Notes that a call was recorded.
    pub(crate) fn record(&mut self, stamp: Stamp, call: &Call, reply: &Reply)
        requires few { length (history_in self.old.events) < MAX_WHOLE_HISTORY }
        ensures { self.new ≡ record self.old {
          events = self.old.events
              ++ Recorded (record { stamp = stamp; call = call.now; reply = reply.now }) ∷ [];
        } }
    {
        count_entry(&mut self.counts, stamp.seat);
        self.events = EventList::and_recorded(&self.events, &stamp, call, reply);
    }

    // Notes that what was kept was handed over or forgotten.
    pub(crate) fn mark(&mut self, stamp: Stamp)
        ensures { self.new ≡ record self.old { events = self.old.events ++ Marked stamp ∷ [] } }
    {
        self.events = EventList::and_marked(&self.events, &stamp);
    }

    // How many entries each seat made.
    pub(crate) fn counts(&self) -> [u64; MAX_SEATS]
        ensures { IsCounted result (history_in self.now.events) }
    {
        self.counts
    }
}
