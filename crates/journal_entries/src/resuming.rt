//! A scheduler that goes on after a journal.

ghost use Rattle.std.specs.Prelude.{IfOk, IfErr};
ghost use Rattle.text_stream.specs.Watched.{FailsBy};
ghost use Rattle.journal_entries.specs.Journal.{StopsJournal};
ghost use Rattle.journal_entries.specs.Judging.{Resumes};

use crate::judging::{Judged, judge_journal};
use sched_history::Scheduler;
use std::alloc::Global;
use text_stream::{Source, TextFault};

/// What a journal is resumed to.
#[derive(Drop)]
pub enum Resumed {
    /// A scheduler whose whole history is what the journal stands for, all of it handed over. So many bytes of a torn
    /// line stand behind.
    Ready(Scheduler, u64),
    /// This line of the journal, counted from 0, is the first that is wrong: it stands for nothing, or for an entry
    /// that may not follow those before it.
    Bad(u64),
}

/// Reads a journal, and makes the scheduler that goes on after it, exactly where its entries are legal.
pub fn resume<R: Source>(alloc: Global, reader: &mut R) -> Result<Resumed, TextFault>
    ensures resumes { IfOk result (Resumes (R.remaining reader.old) (R.remaining reader.new)) }
    ensures stops { IfErr result (StopsJournal (R.remaining reader.old) (R.remaining reader.new)) }
    ensures failed { FailsBy TextFault.Input result
        (R.has_failed reader.old) (R.has_failed reader.new) }
{
    match judge_journal(alloc, reader) {
        Ok(Judged::Legal(auditor, torn)) => match auditor.into_scheduler() {
            Ok(scheduler) => Ok(Resumed::Ready(scheduler, torn)),
            Err(_) => Err(TextFault::Memory),
        },
        Ok(Judged::Illegal(index, _)) => Ok(Resumed::Bad(index + 1)),
        Ok(Judged::Bad(line)) => Ok(Resumed::Bad(line)),
        Err(fault) => Err(fault),
    }
}
