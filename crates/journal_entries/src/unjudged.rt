//! A reader of a journal's entries that judges none of them.

ghost use Rattle.std.specs.Prelude.{[], List, ℕ, Option, IfOk, IfErr, MatchOption};
ghost use Rattle.minislots.specs.declared.config.Config.{Config as Configuration};
ghost use Rattle.sched_calls.specs.declared.reply.Entry.{Entry as Recorded};
ghost use Rattle.text_stream.specs.Watched.{FailsBy};
ghost use Rattle.journal_entries.specs.Journal.{HasNoOpening, StopsJournal};
ghost use Rattle.journal_entries.specs.Unjudged.{HasRead, IsRead, ReadsBytes};

use crate::entries::read_opening;
use history_reading::entry_in;
use minislots::Checked;
use sched_history::Entry;
use std::alloc::Global;
use text_stream::{Lines, Source, TextFault, Whole};

/// What is read of a journal.
#[derive(Drop)]
pub enum Read {
    /// The next line is this entry. Whether it may follow those before it is for whoever reads to judge.
    Entry(Entry),
    /// The next line is no entry.
    NoEntry,
    /// No whole line is left. So many bytes stand behind the last newline, and count for nothing.
    End(u64),
}

/// The entries of a journal, which are read one by one and judged by whoever reads them, so that none is judged twice.
/// Each line is let go of before the next. Contracts speak of its lines, that were read and not told.
#[derive(Drop)]
pub struct UnjudgedEntries {
    alloc: Global,
    /// The lines behind the last entry.
    pub lines: Lines,
}

impl UnjudgedEntries {
    /// Reads the first line of a journal, its configuration. None where there is no whole line, or the first one is no
    /// lawful configuration.
    pub fn open<R: Source>(
        alloc: Global,
        reader: &mut R,
    ) -> Result<Option<(Checked, UnjudgedEntries)>, TextFault>
        ensures opened { IfOk result (λ opened. MatchOption opened
            (HasNoOpening (R.remaining reader.old) (R.remaining reader.new))
            (λ it. HasRead (R.remaining reader.old) (R.remaining reader.new) it.1 it.0 [])) }
        ensures stops { IfErr result (StopsJournal
            (R.remaining reader.old) (R.remaining reader.new)) }
        ensures failed { FailsBy TextFault.Input result
            (R.has_failed reader.old) (R.has_failed reader.new) }
    {
        let mut lines = Lines::new(alloc)?;
        match read_opening(alloc, &mut lines, reader) {
            Ok(Some(config)) => Ok(Some((config, UnjudgedEntries { alloc, lines }))),
            Ok(None) => Ok(None),
            Err(fault) => Err(fault),
        }
    }

    /// Reads the next line, and gives its entry where it is one. After anything else nothing comes.
    pub fn next<R: Source>(&mut self, reader: &mut R) -> Result<Read, TextFault>
        // Behind lines that stand for a legal history the next line is what is told, and at the end there is none.
        ensures reads { IfOk result (λ read.
            (before : Option (List ℕ)) (c : Configuration) (es : List Recorded) →
            HasRead before (R.remaining reader.old) self.old c es →
            IsRead before (R.remaining reader.new) self.new c es read) }
        ensures encodable { IfOk result ReadsBytes }

        // A failed read is told where one has failed, and a journal is too long only where a line has more bytes than
        // 64 bits can count.
        ensures stops { IfErr result (λ fault.
            (before : Option (List ℕ)) (c : Configuration) (es : List Recorded) →
            HasRead before (R.remaining reader.old) self.old c es →
            StopsJournal before (R.remaining reader.new) fault) }
        ensures failed { FailsBy TextFault.Input result
            (R.has_failed reader.old) (R.has_failed reader.new) }
    {
        match self.lines.next_whole(reader) {
            Ok(Whole::Line) => {}
            Ok(Whole::Long) => return Ok(Read::NoEntry),
            Ok(Whole::Torn(bytes)) => return Ok(Read::End(bytes)),
            Err(fault) => return Err(fault),
        }
        match entry_in(self.alloc, self.lines.line()) {
            Ok(Some(entry)) => Ok(Read::Entry(entry)),
            Ok(None) => Ok(Read::NoEntry),
            Err(_) => Err(TextFault::Memory),
        }
    }
}
