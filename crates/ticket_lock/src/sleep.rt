//! How a seat whose turn is far sleeps on its word, and how whoever serves its ticket wakes it.
//!
//! A sleeper is always woken. It sets its bit, and then the kernel lets it sleep only if its word is not yet its
//! ticket. Whoever serves it stores the ticket, and then reads the bits. These four steps have one order: if the store
//! comes first, the seat does not sleep; if not, the bit is set when it is read, and the word is woken after the
//! store. Nobody else waits on that word, so the wake is the sleeper's. A wake that comes before the seat is asleep
//! comes after the store, so the seat does not sleep then. `checks/sleeping` takes these steps in every order.
ghost use Rattle.std.specs.Prelude.{◌≡◌, ◌%◌, ◌^◌, ◌==◌};
ghost use Rattle.ticket_lock.specs.Calls.{HasServed};
ghost use Rattle.ticket_lock.specs.Row.{place_of, before_by, TellsNear, IsBeforeTurn};

use crate::board::place_of;
use crate::journal::Journal;
use crate::lock::TicketLock;
use crate::quiet::QuietLock;
use crate::seat::Seat;
use std::hint;
use std::sync::Wait;
use std::sync::atomic::AtomicU64;
use std::sync::atomic::Ordering::SeqCst;
use ticket_core::GRANTS;

/// A turn is near where no more than so many come before it. A seat whose turn is not near sleeps.
pub const NEAR: u64 = 3;

// How often a seat looks before it asks whether its turn is near.
const FIRST_LOOKS: u32 = 16;

// How often one whose turn is near looks before it sleeps too. It never yields: where other processes keep the cores
// busy, a thread that yields waits for the whole slice of one of them.
const LOOKS: u32 = 4000;

// The bit of the word that a seat with this ticket waits on: bit i for word i of the row.
fn bit_of(ticket: u64) -> u64
    ensures bit { result ≡ 2 ^ (ticket % 64) }
{
    1 << (ticket % GRANTS as u64)
}

// The ticket whose word tells a seat that waits with this ticket whether its turn is near.
fn herald_of(ticket: u64) -> u64
    ensures before { result ≡ before_by NEAR ticket }
    ensures tells { TellsNear NEAR ticket result }
{
    ticket.wrapping_sub(NEAR)
}

// The low half of what a seat that waits with this ticket has in its word before its turn: of the ticket 64 before it.
fn awaited(ticket: u64) -> u32
    ensures awaited { IsBeforeTurn ticket result }
{
    (ticket.wrapping_sub(GRANTS as u64) & 0xffff_ffff) as u32
}

// Which words of the row have a seat that sleeps or is about to. No clause tells of it.
#[derive(Drop)]
pub(crate) struct Sleepers {
    bits: AtomicU64,
}

// A seat that sleeps or is about to: its bit is set. It has no `Drop`, so it has to rise.
#[must_use]
struct Lying {
    bit: u64,
    place: usize,
    awaited: u32,
}

impl Sleepers {
    // Nobody sleeps.
    pub(crate) fn none() -> Sleepers {
        Sleepers {
            bits: AtomicU64::new(0),
        }
    }

    // Sets the bit of a seat that waits with this ticket.
    fn lie_down(&self, ticket: u64) -> Lying
        ensures bit { result.bit ≡ 2 ^ (ticket % 64) }
        ensures place { result.place ≡ place_of ticket }
        ensures awaited { IsBeforeTurn ticket result.awaited }
    {
        let bit = bit_of(ticket);
        self.bits.fetch_add(bit, SeqCst);
        Lying {
            bit,
            place: place_of(ticket),
            awaited: awaited(ticket),
        }
    }

    // Clears it.
    fn rise(&self, lying: Lying) {
        let Lying {
            bit,
            place: _,
            awaited: _,
        } = lying;
        self.bits.fetch_sub(bit, SeqCst);
    }

    // Whether the bit of a seat that waits with this ticket is set.
    fn has(&self, ticket: u64) -> bool {
        self.bits.load(SeqCst) & bit_of(ticket) != 0
    }
}

// A ticket that was served just now. Whoever waits with it may sleep. It has no `Drop`, so it has to be woken.
#[must_use]
pub(crate) struct Served {
    ticket: u64,
}

impl Served {
    // The ticket that this seat has served, by its leave.
    pub(crate) fn by<T: Journal>(_seat: &Seat<T>, ticket: u64) -> Served
        requires left { HasServed T.stamp T.head T.entries _seat.now ticket }
        ensures ticket { result.ticket ≡ ticket }
    {
        Served { ticket }
    }

    // At a lock that is quiet no seat sleeps, and none is woken.
    pub(crate) fn wakes_nobody<T: Journal>(self, _lock: &QuietLock<T>) {
        let Served { ticket: _ } = self;
    }
}

// What a word of the row had when it was read.
#[derive(Clone, Copy)]
struct Glance {
    place: usize,
    granted: u64,
}

impl Glance {
    // Whether the turn of a seat that waits with this ticket is near, by the word of its herald.
    fn tells_near(&self, ticket: u64) -> bool
        requires place { self.now.place ≡ place_of (before_by NEAR ticket) }
        ensures near { result ≡ (self.now.granted == before_by NEAR ticket) }
    {
        self.granted == herald_of(ticket)
    }
}

impl<T: Journal> TicketLock<T> {
    // What passes between two looks of a seat with this ticket, after so many since it last slept. It tells how many
    // there are then. What is near once stays near.
    pub(crate) fn pause<R: Wait>(&self, rt: &R, ticket: u64, looks: u32) -> u32 {
        let is_far = looks == FIRST_LOOKS && !self.is_near(ticket);
        if is_far || looks >= LOOKS {
            self.sleep(rt, ticket);
            return 0;
        }
        hint::spin_loop();
        looks.saturating_add(1)
    }

    // Whether the turn of a seat that waits with this ticket is near: whether the ticket so many before its own was
    // served.
    fn is_near(&self, ticket: u64) -> bool {
        self.glance(herald_of(ticket)).tells_near(ticket)
    }

    // What the word of this ticket has. It is read without a seat, as a sleeper's word is: that changes no word and
    // tells no seat anything.
    fn glance(&self, ticket: u64) -> Glance
        ensures place { result.place ≡ place_of ticket }
    {
        let place = place_of(ticket);
        Glance {
            place,
            granted: self.table.shared.peek(place),
        }
    }

    // Sleeps on the ticket's word while it has what it has before its turn.
    fn sleep<R: Wait>(&self, rt: &R, ticket: u64) {
        let lying = self.asleep.lie_down(ticket);
        self.table.shared.park(rt, lying.place, lying.awaited);
        self.asleep.rise(lying);
    }

    // Wakes the seat with this ticket, which is served, if it sleeps.
    pub(crate) fn wake(&self, served: Served) {
        let Served { ticket } = served;
        if self.asleep.has(ticket) {
            self.table.shared.wake_one(place_of(ticket));
        }
    }
}
