//! The export that opens a scheduler from a journal.

ghost use Rattle.std.specs.Prelude.{◌≡◌, None, IfOk};
ghost use Rattle.mapsched_c.specs.Resume.{going_on, Resumes};

use crate::handle::Handle;
use crate::status;
use journal_entries::{Judged, judge_journal};
use sched_history::{Auditor, Scheduler};
use std::alloc::{AllocError, Global};
use text_stream::TextFault;

// The scheduler that goes on after the entries that an auditor has taken.
fn resumed(alloc: Global, auditor: Auditor) -> Result<Box<Scheduler>, AllocError>
    ensures { IfOk result
        (λ opened. opened.value ≡ going_on auditor.config auditor.history) }
{
    let Ok(opened) = auditor.into_scheduler() else {
        return Err(AllocError);
    };
    match Box::new(alloc, opened) {
        Ok(opened) => Ok(opened),
        Err(_) => Err(AllocError),
    }
}

// Puts the scheduler that goes on after a journal into an empty handle.
#[tactic(auto, using(crate::proofs::GoingOn::torn_within, crate::proofs::GoingOn::stands_for))]
fn resume(alloc: Global, scheduler: &mut Handle, journal: &[u8], place: &mut usize) -> u32
    requires { scheduler.old.place.machine ≡ None }
    ensures { Resumes journal.now None scheduler.new.place.machine result place.old place.new }
{
    let mut unread = journal;
    let (auditor, torn) = match judge_journal(alloc, &mut unread) {
        Ok(Judged::Legal(auditor, torn)) => (auditor, torn),
        Ok(Judged::Illegal(entry, _)) => {
            *place = entry as usize;
            return status::ILLEGAL;
        }
        Ok(Judged::Bad(line)) => {
            *place = line as usize;
            return status::NO_HISTORY;
        }
        Err(TextFault::TooLong) => return status::TOO_LONG,
        Err(_) => return status::OUT_OF_MEMORY,
    };
    let Ok(opened) = resumed(alloc, auditor) else {
        return status::OUT_OF_MEMORY;
    };
    *place = journal.len() - torn as usize;
    scheduler.put(opened);
    status::OK
}

/// Opens a scheduler that goes on after a journal into an empty handle: the entries of its lines are judged one by one,
/// and are the whole history, all of it handed over. Bytes behind the last newline are left out. Tells how many bytes
/// the whole lines have; or the first entry, from 0, that may not follow those before it; or the first line, from 0,
/// that is no entry, or 0 where there is no lawful configuration. A handle that is full stays as it is.
#[unsafe(no_mangle)]
pub extern "C" fn mapsched_resume(
    alloc: Global,
    scheduler: &mut Handle,
    journal: &[u8],
    place: &mut usize,
) -> u32
    ensures { Resumes journal.now scheduler.old.place.machine scheduler.new.place.machine
        result place.old place.new }
{
    if scheduler.is_full() {
        return status::FULL;
    }
    resume(alloc, scheduler, journal, place)
}
