//! What the static library exports, by the header's names.

ghost use Rattle.std.specs.Prelude.{◌≡◌, None, Some};
ghost use Rattle.mapsched_c.specs.Answer.{Answers};
ghost use Rattle.mapsched_c.specs.Call.{call_of};
ghost use Rattle.mapsched_c.specs.Config.{config_of, ChecksConfig, Opens};
ghost use Rattle.mapsched_c.specs.Entry.{all_forgotten, count_over, entry_at, entry_over, entry_status};
ghost use Rattle.mapsched_c.specs.Entry.{handed_over, handle_status, stamp_of};

use crate::call::PlainCall;
use crate::config::PlainConfig;
use crate::entry::{PlainEntry, PlainStamp, put_entry};
use crate::handle::Handle;
use crate::reply::PlainReply;
use crate::scheduler::{answer, entries};
use crate::status;
use sched_history::Scheduler;
use std::alloc::Global;
use text_stream::field_number;

/// Whether a configuration is lawful: `OK`, or `BAD_CONFIG` and the number of its first wrong field.
#[unsafe(no_mangle)]
pub extern "C" fn mapsched_check(config: &PlainConfig) -> u32
    ensures { ChecksConfig (config_of config.now) result }
{
    match config.config().check() {
        Ok(_) => status::OK,
        Err(fault) => status::BAD_CONFIG + u32::from(field_number(fault)),
    }
}

/// Opens a scheduler into an empty handle. A handle that is full, and a wrong configuration, stay as they are.
#[unsafe(no_mangle)]
pub extern "C" fn mapsched_open(alloc: Global, scheduler: &mut Handle, config: &PlainConfig) -> u32
    ensures { Opens scheduler.old.place.machine scheduler.new.place.machine
        (config_of config.now) result }
{
    if scheduler.is_full() {
        return status::FULL;
    }
    let checked = match config.config().check() {
        Ok(checked) => checked,
        Err(fault) => return status::BAD_CONFIG + u32::from(field_number(fault)),
    };
    let Ok(opened) = Scheduler::open(alloc, checked) else {
        return status::OUT_OF_MEMORY;
    };
    let Ok(opened) = Box::new(alloc, opened) else {
        return status::OUT_OF_MEMORY;
    };
    scheduler.put(opened);
    status::OK
}

/// Answers a call, records it with its stamp, and writes its reply. A call that is not recorded changes nothing.
#[unsafe(no_mangle)]
pub extern "C" fn mapsched_call(
    alloc: Global,
    scheduler: &mut Handle,
    stamp: &PlainStamp,
    call: &PlainCall,
    reply: &mut PlainReply,
) -> u32
    ensures answer { Answers scheduler.old.place.machine scheduler.new.place.machine
        (stamp_of stamp.now) (call_of call.now) result reply.old reply.new }
{
    let Some(mut taken) = scheduler.take(alloc) else {
        return status::EMPTY;
    };
    let answered = match call.call() {
        Some(call) => answer(&mut taken, stamp.stamp(), call, reply),
        None => status::BAD_CALL,
    };
    scheduler.put(taken);
    answered
}

/// Tells how many calls were recorded: the length of the whole history.
#[unsafe(no_mangle)]
pub extern "C" fn mapsched_count(alloc: Global, scheduler: &mut Handle, count: &mut usize) -> u32
    ensures status { result ≡ handle_status scheduler.old.place.machine }
    ensures count { count.new ≡ count_over count.old scheduler.old.place.machine }
    ensures same { scheduler.new.place.machine ≡ scheduler.old.place.machine }
{
    let Some(taken) = scheduler.take(alloc) else {
        return status::EMPTY;
    };
    *count = taken.recorded() as usize;
    scheduler.put(taken);
    status::OK
}

/// Tells the place of the first entry that is kept, in the whole history and from 0: so many were handed over.
#[unsafe(no_mangle)]
pub extern "C" fn mapsched_kept_from(
    alloc: Global,
    scheduler: &mut Handle,
    place: &mut usize,
) -> u32
    ensures status { result ≡ handle_status scheduler.old.place.machine }
    ensures place { place.new ≡ handed_over place.old scheduler.old.place.machine }
    ensures same { scheduler.new.place.machine ≡ scheduler.old.place.machine }
{
    let Some(taken) = scheduler.take(alloc) else {
        return status::EMPTY;
    };
    *place = taken.handed_over() as usize;
    scheduler.put(taken);
    status::OK
}

/// Lets go of the entries that are kept, as if they were handed over, so that the scheduler goes on without end.
#[unsafe(no_mangle)]
pub extern "C" fn mapsched_forget(alloc: Global, scheduler: &mut Handle) -> u32
    ensures status { result ≡ handle_status scheduler.old.place.machine }
    ensures forgotten { scheduler.new.place.machine ≡ all_forgotten scheduler.old.place.machine }
{
    let Some(mut taken) = scheduler.take(alloc) else {
        return status::EMPTY;
    };
    taken.forget();
    scheduler.put(taken);
    status::OK
}

// Writes the entry at this place of the whole history, from 0, where it is kept.
pub(crate) fn put_entry_at(scheduler: &Scheduler, place: usize, entry: &mut PlainEntry) -> u32
    ensures status { result ≡ entry_status (Some scheduler.now) place }
    ensures entry { entry.new ≡ entry_over entry.old (entry_at (Some scheduler.now) place) }
{
    let first = scheduler.handed_over() as usize;
    if place < first {
        return status::HANDED_OVER;
    }
    put_entry(entries(scheduler), place - first, entry)
}

/// Writes the entry at this place of the whole history, from 0, where it is kept.
#[unsafe(no_mangle)]
pub extern "C" fn mapsched_entry(
    alloc: Global,
    scheduler: &mut Handle,
    place: usize,
    entry: &mut PlainEntry,
) -> u32
    ensures status { result ≡ entry_status scheduler.old.place.machine place }
    ensures entry { entry.new ≡ entry_over entry.old (entry_at scheduler.old.place.machine place) }
    ensures same { scheduler.new.place.machine ≡ scheduler.old.place.machine }
{
    let Some(taken) = scheduler.take(alloc) else {
        return status::EMPTY;
    };
    let answered = put_entry_at(&taken, place, entry);
    scheduler.put(taken);
    answered
}

/// Frees the scheduler, and leaves the handle empty.
#[unsafe(no_mangle)]
pub extern "C" fn mapsched_close(alloc: Global, scheduler: &mut Handle) -> u32
    ensures status { result ≡ handle_status scheduler.old.place.machine }
    ensures closed { scheduler.new.place.machine ≡ None }
{
    match scheduler.take(alloc) {
        Some(_taken) => status::OK,
        None => status::EMPTY,
    }
}
