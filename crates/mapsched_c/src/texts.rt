//! The exports that write and read the text of a history.

ghost use Rattle.std.specs.Prelude.{◌≡◌, ◌≤◌, length, Some};
ghost use Rattle.sched_calls.specs.declared.reply.TheConstants.{MAX_ENTRIES};
ghost use Rattle.mapsched_c.specs.Text.{GivesText, GivesHistoryText, Judges, Audits};

use crate::handle::Handle;
use crate::scheduler::text_of;
use crate::status;
use history_reading::read_history;
use minislots::Checked;
use sched_history::{AuditFault, Entry, Scheduler, audit};
use std::alloc::Global;
use text_stream::{TextFault, field_number};

// Writes a text at the front of the room, if it fits, and tells its length.
pub(crate) fn put_text(text: &[u8], room: &mut [u8], length: &mut usize) -> u32
    ensures { GivesText text.now result room.old room.new length.new }
{
    *length = text.len();
    if text.len() > room.len() {
        return status::NO_ROOM;
    }
    room[..text.len()].copy_from_slice(text);
    status::OK
}

// Writes the text of a history of which nothing was handed over.
fn give_history(alloc: Global, scheduler: &Scheduler, room: &mut [u8], length: &mut usize) -> u32
    ensures { GivesHistoryText (Some scheduler.now) result room.old room.new length.old length.new }
{
    if scheduler.handed_over() != 0 {
        return status::HANDED_OVER;
    }
    match text_of(alloc, scheduler) {
        Ok(text) => put_text(&text, room, length),
        Err(_) => status::OUT_OF_MEMORY,
    }
}

/// Writes the text of the history, JSON in one line, at the front of the room, and tells its length. Where there is no
/// room for it, tells its length alone; where some of it was handed over, gives nothing.
#[unsafe(no_mangle)]
pub extern "C" fn mapsched_history(
    alloc: Global,
    scheduler: &mut Handle,
    room: &mut [u8],
    length: &mut usize,
) -> u32
    ensures text { GivesHistoryText scheduler.old.place.machine result
        room.old room.new length.old length.new }
    ensures same { scheduler.new.place.machine ≡ scheduler.old.place.machine }
{
    let Some(taken) = scheduler.take(alloc) else {
        return status::EMPTY;
    };
    let answered = give_history(alloc, &taken, room, length);
    scheduler.put(taken);
    answered
}

// Judges a history, and tells how many entries it has or which is the first that may not stand where it does.
fn judge(alloc: Global, config: &Checked, entries: &[Entry], place: &mut usize) -> u32
    requires { length entries.now ≤ MAX_ENTRIES }
    ensures { Judges config.now entries.now result place.old place.new }
{
    match audit(alloc, config, entries) {
        Ok(()) => {
            *place = entries.len();
            status::OK
        }
        Err(AuditFault::Illegal(first)) => {
            *place = first;
            status::ILLEGAL
        }
        Err(AuditFault::Memory) => status::OUT_OF_MEMORY,
    }
}

/// Audits the text of a history. Tells how many entries a legal one has, or the first entry, from 0, whose reply may
/// not follow those before it, or for a text that is no history the entry, from 1, that is none, 0 where the document
/// or its configuration is broken.
#[tactic(auto, using(crate::proofs::Reading::audits_history, crate::proofs::Reading::audits_fault, crate::proofs::Reading::audits_long))]
#[unsafe(no_mangle)]
pub extern "C" fn mapsched_audit(alloc: Global, text: &[u8], place: &mut usize) -> u32
    ensures { Audits text.now result place.old place.new }
{
    let mut unread = text;
    match read_history(alloc, &mut unread) {
        Ok((config, entries)) => judge(alloc, &config, &entries, place),
        Err(TextFault::TooLong) => status::TOO_LONG,
        Err(TextFault::NotJson) => status::NOT_JSON,
        Err(TextFault::Shape(entry)) => {
            *place = entry as usize;
            status::NO_HISTORY
        }
        Err(TextFault::Config(field)) => status::BAD_CONFIG + u32::from(field_number(field)),
        Err(_) => status::OUT_OF_MEMORY,
    }
}
