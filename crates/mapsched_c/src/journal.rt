//! The exports that write a journal: its first line, and what is kept as the lines behind it.

ghost use Rattle.std.specs.Prelude.{◌≡◌, IfOk, Some};
ghost use Rattle.std.specs.List.{AllByRecursion};
ghost use Rattle.sched_history.specs.Machine.{kept_of};
ghost use Rattle.sched_calls.specs.Reply.{IsEncodable};
ghost use Rattle.mapsched_c.specs.Journal.{lines_of, GivesTextOrNone, GivesLines, GivesOpening};

use crate::handle::Handle;
use crate::scheduler::entries;
use crate::status;
use crate::texts::put_text;
use history_writing::{add_entry, opening_text};
use sched_history::{Entry, Scheduler};
use std::alloc::{AllocError, Global};

// The lines of entries, one behind the other.
pub(crate) fn lines_text(alloc: Global, entries: &[Entry]) -> Result<Vec<u8>, AllocError>
    requires { AllByRecursion (λ e. IsEncodable e.reply) entries.now }
    ensures { IfOk result (λ text. text.items ≡ lines_of entries.now) }
{
    let mut text = Vec::new(alloc);
    for entry in entries {
        add_entry(alloc, &mut text, entry)?;
    }
    Ok(text)
}

// Writes the lines of the entries that are kept.
pub(crate) fn give_lines(
    alloc: Global,
    scheduler: &Scheduler,
    room: &mut [u8],
    length: &mut usize,
) -> u32
    ensures { GivesTextOrNone (lines_of (kept_of scheduler.now)) result
        room.old room.new length.old length.new }
{
    let kept = entries(scheduler);
    match lines_text(alloc, kept) {
        Ok(text) => put_text(&text, room, length),
        Err(_) => status::OUT_OF_MEMORY,
    }
}

/// Writes the entries that are kept as lines of a journal, each the text of its entry in JSON and a newline, at the
/// front of the room, and tells their length. Where there is no room for them, tells their length alone. The first is
/// the entry of the place that `mapsched_kept_from` tells.
#[unsafe(no_mangle)]
pub extern "C" fn mapsched_lines(
    alloc: Global,
    scheduler: &mut Handle,
    room: &mut [u8],
    length: &mut usize,
) -> u32
    ensures text { GivesLines scheduler.old.place.machine result
        room.old room.new length.old length.new }
    ensures same { scheduler.new.place.machine ≡ scheduler.old.place.machine }
{
    let Some(taken) = scheduler.take(alloc) else {
        return status::EMPTY;
    };
    let answered = give_lines(alloc, &taken, room, length);
    scheduler.put(taken);
    answered
}

// Writes the first line of a journal.
fn give_opening(alloc: Global, scheduler: &Scheduler, room: &mut [u8], length: &mut usize) -> u32
    ensures { GivesOpening (Some scheduler.now) result room.old room.new length.old length.new }
{
    let config = scheduler.config().config();
    match opening_text(alloc, &config) {
        Ok(text) => put_text(&text, room, length),
        Err(_) => status::OUT_OF_MEMORY,
    }
}

/// Writes the first line of a journal, that of the configuration, at the front of the room, and tells its length. Where
/// there is no room for it, tells its length alone. With the lines of all entries behind it, it is a journal.
#[unsafe(no_mangle)]
pub extern "C" fn mapsched_opening(
    alloc: Global,
    scheduler: &mut Handle,
    room: &mut [u8],
    length: &mut usize,
) -> u32
    ensures text { GivesOpening scheduler.old.place.machine result
        room.old room.new length.old length.new }
    ensures same { scheduler.new.place.machine ≡ scheduler.old.place.machine }
{
    let Some(taken) = scheduler.take(alloc) else {
        return status::EMPTY;
    };
    let answered = give_opening(alloc, &taken, room, length);
    scheduler.put(taken);
    answered
}
