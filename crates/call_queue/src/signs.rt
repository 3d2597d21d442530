//! Where a holder sees who left the ticket that it serves next. No clause tells of it: a sign says only where to look.
//!
//! The call of a ticket that was left is made, or its seat is called up. The seat puts up a sign, looks once more at
//! the lock, leaves the ticket, and asks whether the sign is still up; if not, it takes the ticket back. Whoever serves
//! the ticket leaves the lock, and then looks for the sign: it takes up what was left, or, if that is not there yet,
//! takes the sign down and calls up. So either the seat sees that its ticket is served, or the holder sees its sign. At
//! most 64 tickets are in flight, but a holder may look late, when the word has the sign of a later ticket: so it takes
//! down just the sign that it found. `checks/leaving` takes these steps in every order.
ghost use Rattle.std.specs.Prelude.{◌≡◌, IfOk, IfErr, IfSome};
ghost use Rattle.ticket_lock.specs.Calls.{HasServed};

use crate::deal::Deal;
use crate::tray::Serving;
use crate::waiting::Waiting;
use std::alloc::Global;
use std::snapshot::Snapshot;
use std::sync::atomic::AtomicU64;
use std::sync::atomic::Ordering::SeqCst;
use ticket_core::MAX_SEATS;
use ticket_lock::{Held, Journal, Seat, Ticket};

// What a sign has in place of a seat's number where its ticket is served.
const SERVED: u64 = 255;

// The sign of a ticket, with a seat's number or that it is served.
fn sign_of(ticket: u64, what: u64) -> u64 {
    ticket.wrapping_mul(256).wrapping_add(what)
}

/// The signs of the tickets in flight.
#[derive(Drop)]
pub(crate) struct Signs {
    row: Vec<AtomicU64>,
}

/// A sign that a seat has put up for its ticket, as that was then. It has no `Drop`: the seat asks for it once it has
/// left the ticket, or enters by itself.
#[must_use]
pub(crate) struct Raised<T: Journal> {
    ticket: u64,
    number: u32,
    at: Snapshot<Ticket<T>>,
}

/// The ticket that a seat has served by its leave. It has no `Drop`, so a holder has to look for its sign.
#[must_use]
pub(crate) struct Behind {
    ticket: u64,
}

/// A sign that a holder found up for the ticket that it has served. It has no `Drop`: the holder takes up what its seat
/// left, or takes it down.
#[must_use]
pub(crate) struct Shown {
    ticket: u64,
    number: u32,
}

impl<T: Journal> Raised<T> {
    /// The seat has entered by itself.
    pub(crate) fn is_served(self, _held: &Held<T>) {
        let Raised {
            ticket: _,
            number: _,
            at: _,
        } = self;
    }
}

impl Behind {
    /// The ticket that this seat has served, by its leave.
    pub(crate) fn of<T: Journal>(_seat: &Seat<T>, ticket: u64) -> Behind
        requires left { HasServed T.stamp T.head T.entries _seat.now ticket }
        ensures ticket { result.ticket ≡ ticket }
    {
        Behind { ticket }
    }
}

impl Shown {
    /// The number of the seat that put it up.
    pub(crate) fn number(&self) -> u32
        ensures number { result ≡ self.now.number }
    {
        self.number
    }

    /// Its ticket.
    pub(crate) fn ticket(&self) -> u64
        ensures ticket { result ≡ self.now.ticket }
    {
        self.ticket
    }

    /// What its seat left was taken up.
    pub(crate) fn is_taken_up<D: Deal>(self, _serving: &Serving<D>) {
        let Shown {
            ticket: _,
            number: _,
        } = self;
    }
}

impl Signs {
    /// No sign is up. Where there is no memory for them none ever is.
    pub(crate) fn none(alloc: Global) -> Signs {
        let mut row = Vec::new(alloc);
        if row.reserve(MAX_SEATS).is_ok() {
            for _ in 0..MAX_SEATS {
                let _full = row.push(AtomicU64::new(u64::MAX));
            }
        }
        Signs { row }
    }

    // The word of this ticket.
    fn word(&self, ticket: u64) -> Option<&AtomicU64> {
        self.row.get((ticket % MAX_SEATS as u64) as usize)
    }

    // The number of the seat whose sign is up for this ticket, if one is.
    fn found(&self, ticket: u64) -> Option<u32> {
        let found = self.word(ticket)?.load(SeqCst);
        let number = found.wrapping_sub(sign_of(ticket, 0));
        if number < MAX_SEATS as u64 {
            Some(number as u32)
        } else {
            None
        }
    }

    /// The seat with this number is about to leave this ticket. None where no holder can see that.
    pub(crate) fn put_up<T: Journal>(&self, ticket: &Ticket<T>, number: u32) -> Option<Raised<T>>
        ensures at { IfSome result (λ r. r.at.value ≡ ticket.now) }
    {
        let residue = ticket.number();
        let word = self.word(residue)?;
        word.store(sign_of(residue, number as u64), SeqCst);
        Some(Raised {
            ticket: residue,
            number,
            at: Snapshot::of(ticket),
        })
    }

    /// Whether the sign of a seat that has left its ticket since is still up: Err where a holder has seen it.
    pub(crate) fn ask<T: Journal, D: Deal>(
        &self,
        raised: Raised<T>,
        left: Waiting<D>,
    ) -> Result<Waiting<D>, Waiting<D>>
        ensures up { IfOk result (λ w. w ≡ left) }
        ensures down { IfErr result (λ w. w ≡ left) }
    {
        let Raised {
            ticket,
            number,
            at: _,
        } = raised;
        if self.found(ticket) == Some(number) {
            Ok(left)
        } else {
            Err(left)
        }
    }

    /// The sign that is up for a ticket that was served, if one is.
    pub(crate) fn shown(&self, behind: Behind) -> Option<Shown>
        ensures ticket { IfSome result (λ s. s.ticket ≡ behind.ticket) }
    {
        let Behind { ticket } = behind;
        let number = self.found(ticket)?;
        Some(Shown { ticket, number })
    }

    /// Takes down this sign, and no other: by now the word may have that of a later ticket.
    pub(crate) fn take_down(&self, shown: Shown) {
        let Shown { ticket, number } = shown;
        if let Some(word) = self.word(ticket) {
            let up = sign_of(ticket, number as u64);
            let _found = word.compare_exchange(up, sign_of(ticket, SERVED), SeqCst, SeqCst);
        }
    }
}
