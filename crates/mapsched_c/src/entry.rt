//! An entry of a history in plain numbers.

ghost use Rattle.std.specs.Prelude.{◌≡◌};
ghost use Rattle.std.specs.List.{AllByRecursion, slice_get};
ghost use Rattle.sched_calls.specs.Reply.{IsEncodable};
ghost use Rattle.mapsched_c.specs.Reply.{HasRoom};
ghost use Rattle.mapsched_c.specs.Entry.{entry_over, plain_entry, stamp_of, status_of_entry};

use crate::call::PlainCall;
use crate::reply::PlainReply;
use crate::status;
use minislots::Stamp;
use sched_history::Entry;

/// The seat of the lock that made a call, and the ticket that it held.
#[repr(C)]
#[derive(Clone, Copy)]
pub struct PlainStamp {
    /// The ticket that the seat held.
    pub ticket: u64,
    /// The number of the seat.
    pub seat: u32,
}

impl PlainStamp {
    // The stamp of these numbers.
    pub(crate) fn stamp(&self) -> Stamp
        ensures { result ≡ stamp_of self.now }
    {
        Stamp {
            seat: self.seat,
            ticket: self.ticket,
        }
    }
}

/// A call with its reply, and who made it.
#[repr(C)]
#[derive(Drop)]
pub struct PlainEntry {
    /// Who made the call.
    pub stamp: PlainStamp,
    /// The call.
    pub call: PlainCall,
    /// What it was answered.
    pub reply: PlainReply,
}

impl PlainEntry {
    // Writes an entry over what stands here.
    pub(crate) fn put(&mut self, entry: &Entry)
        requires encodable { IsEncodable entry.now.reply }
        requires room { HasRoom entry.now.reply }
        ensures { self.new ≡ plain_entry self.old entry.now }
    {
        self.stamp = PlainStamp {
            ticket: entry.stamp.ticket,
            seat: entry.stamp.seat,
        };
        self.call = PlainCall::of(entry.call);
        self.reply.put(&entry.reply);
    }
}

// Writes the entry at this place over what stands there, where there is one.
pub(crate) fn put_entry(entries: &[Entry], place: usize, entry: &mut PlainEntry) -> u32
    requires encodable { AllByRecursion (λ e. IsEncodable e.reply) entries.now }
    requires room { AllByRecursion (λ e. HasRoom e.reply) entries.now }
    ensures status { result ≡ status_of_entry (slice_get entries.now place) }
    ensures entry { entry.new ≡ entry_over entry.old (slice_get entries.now place) }
{
    if place >= entries.len() {
        return status::NO_ENTRY;
    }
    entry.put(&entries[place]);
    status::OK
}
