//! What is found in the file of a journal.

ghost use Rattle.std.specs.Prelude.{◌≡◌, ◌<◌, false, true, IfOk, IfErr};
ghost use Rattle.journal_file.specs.Found.{HasNoLine, HasLine, IsEnd, IsFound, StopsFile};
ghost use Rattle.journal_file.specs.Store.{HasLength};

use crate::fault::FileFault;
use crate::place::Place;
use crate::reading::Reading;
use crate::store::Store;
use journal_entries::{Resumed, resume};
use sched_history::Scheduler;
use std::alloc::Global;
use text_stream::{Lines, TextFault, Whole};

// Whether the file has a whole line.
#[tactic(auto, using(crate::proofs::Finding::has_newline))]
fn has_line<S: Store>(alloc: Global, store: &S) -> Result<bool, FileFault>
    ensures none { IfOk result (λ has. has ≡ false → HasNoLine (S.contents store.now)) }
    ensures some { IfOk result (λ has. has ≡ true → HasLine (S.contents store.now)) }
    ensures stops { IfErr result (StopsFile (S.contents store.now) S.may_misread) }
{
    let Ok(mut lines) = Lines::new(alloc) else {
        return Err(FileFault::Memory);
    };
    match lines.next_whole(&mut Reading::new(store)) {
        Ok(Whole::Line) => Ok(true),
        Ok(Whole::Long) => Ok(true),
        Ok(Whole::Torn(_)) => Ok(false),
        Err(_) => Err(FileFault::Failed),
    }
}

// How far a file of so many bytes is a journal of so many entries, behind which so many bytes are torn.
fn place_of(entries: u64, size: u64, torn: u64) -> Result<Place, FileFault>
    ensures ends { IfOk result (IsEnd entries size torn) }
    ensures stops { IfErr result (λ e. (e ≡ FileFault.Failed) × (size < torn)) }
{
    match size.checked_sub(torn) {
        Some(end) => Ok(Place::Resumed { entries, end, torn }),
        None => Err(FileFault::Failed),
    }
}

// What is found in a file of so many bytes, and how far it is a journal.
fn find<S: Store>(
    alloc: Global,
    store: &S,
    size: u64,
) -> Result<(Option<Scheduler>, Place), FileFault>
    requires { HasLength (S.contents store.now) size }
    ensures found { IfOk result (λ r. IsFound (S.contents store.now) r.0 r.1) }
    ensures stops { IfErr result (StopsFile (S.contents store.now) S.may_misread) }
{
    match resume(alloc, &mut Reading::new(store)) {
        Ok(Resumed::Ready(scheduler, torn)) => {
            let place = place_of(scheduler.recorded(), size, torn)?;
            Ok((Some(scheduler), place))
        }
        Ok(Resumed::Bad(line)) if has_line(alloc, store)? => Err(FileFault::Bad(line)),
        Ok(Resumed::Bad(_)) => Ok((None, Place::NoLine(size))),
        Err(TextFault::Memory) => Err(FileFault::Memory),
        Err(_) => Err(FileFault::Failed),
    }
}

/// Reads the file of a journal, line by line in the memory of a scheduler and of one line: the scheduler that continues
/// behind it, or none where it has no whole line, and how far it is a journal.
pub(crate) fn read_store<S: Store>(
    alloc: Global,
    store: &S,
) -> Result<(Option<Scheduler>, Place), FileFault>
    ensures found { IfOk result (λ r. IsFound (S.contents store.now) r.0 r.1) }
    ensures stops { IfErr result (StopsFile (S.contents store.now) S.may_misread) }
{
    let size = match store.size() {
        Ok(size) => size,
        Err(_) => return Err(FileFault::Failed),
    };
    if size == 0 {
        return Ok((None, Place::NoLine(0)));
    }
    find(alloc, store, size)
}
