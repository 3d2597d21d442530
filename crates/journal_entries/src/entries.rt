//! A reader of a journal's entries.

ghost use Rattle.std.specs.Prelude.{◌≡◌, [], List, ℕ, Option, IfOk, IfErr, MatchOption};
ghost use Rattle.text_stream.specs.declared.Told.TheVariants.{Line, Long};
ghost use Rattle.text_stream.specs.Told.{untold};
ghost use Rattle.text_stream.specs.Watched.{FailsBy};
ghost use Rattle.journal_entries.specs.Journal.{StandSoFar, HasNoOpening, StopsJournal};
ghost use Rattle.journal_entries.specs.Next.{HasGiven, HasOpened, IsNext, TakesNext};
ghost use Rattle.journal_entries.specs.Next.{told_last, ShowsBad};

use crate::line::{Taken, opening_in, take_line};
use minislots::Checked;
use sched_history::{Auditor, Entry};
use std::alloc::Global;
use text_stream::{Lines, Source, TextFault, Whole};

/// What comes next of a journal. Lines and entries are counted from 0, and line 0 is the configuration.
#[derive(Drop)]
pub enum Next {
    /// The next line is this entry, which may follow those before it.
    Entry(Entry),
    /// The next line is an entry that may not follow those before it: this one.
    Illegal(u64),
    /// The next line is no entry: this one.
    Bad(u64),
    /// No whole line is left. So many bytes stand behind the last newline, and count for nothing.
    End(u64),
}

/// The entries of a journal, which are read one by one, each judged as [`sched_history::audit`] judges a list. Each
/// line is let go of before the next, so its memory is that of an auditor and of one line, whatever the journal's
/// length. Contracts speak of its lines, which were read and not told, and of its auditor, which has taken the entries
/// that were given.
#[derive(Drop)]
pub struct JournalEntries {
    alloc: Global,
    // Whether the line that was read last is long.
    is_long: bool,
    /// The lines behind the last entry.
    pub lines: Lines,
    /// The auditor that has taken the entries.
    pub auditor: Auditor,
}

// Reads the first line: the configuration, where it is one.
pub(crate) fn read_opening<R: Source>(
    alloc: Global,
    lines: &mut Lines,
    reader: &mut R,
) -> Result<Option<Checked>, TextFault>
    ensures opened { IfOk result (λ config. MatchOption config
        (HasNoOpening (untold lines.old (R.remaining reader.old)) (R.remaining reader.new))
        (λ c. StandSoFar (untold lines.old (R.remaining reader.old))
        (untold lines.new (R.remaining reader.new)) c [])) }
    ensures stops { IfErr result
        (StopsJournal (untold lines.old (R.remaining reader.old)) (R.remaining reader.new)) }
    ensures failed { FailsBy TextFault.Input result
        (R.has_failed reader.old) (R.has_failed reader.new) }
{
    match lines.next_whole(reader) {
        Ok(Whole::Line) => match opening_in(alloc, lines.line()) {
            Ok(config) => Ok(config),
            Err(_) => Err(TextFault::Memory),
        },
        Ok(Whole::Long) => Ok(None),
        Ok(Whole::Torn(_)) => Ok(None),
        Err(fault) => Err(fault),
    }
}

impl JournalEntries {
    /// Reads the first line of a journal, its configuration. None where there is no whole line, or the first one is no
    /// lawful configuration.
    pub fn open<R: Source>(
        alloc: Global,
        reader: &mut R,
    ) -> Result<Option<(Checked, JournalEntries)>, TextFault>
        ensures opened { IfOk result (λ opened. MatchOption opened
            (HasNoOpening (R.remaining reader.old) (R.remaining reader.new))
            (λ it. HasOpened (R.remaining reader.old) (R.remaining reader.new) it.0 it.1)) }
        ensures stops { IfErr result (StopsJournal
            (R.remaining reader.old) (R.remaining reader.new)) }
        ensures failed { FailsBy TextFault.Input result
            (R.has_failed reader.old) (R.has_failed reader.new) }
    {
        let mut lines = Lines::new(alloc)?;
        let config = match read_opening(alloc, &mut lines, reader) {
            Ok(Some(config)) => config,
            Ok(None) => return Ok(None),
            Err(fault) => return Err(fault),
        };
        let Ok(auditor) = Auditor::open(alloc, config) else {
            return Err(TextFault::Memory);
        };
        let entries = JournalEntries {
            alloc,
            is_long: false,
            lines,
            auditor,
        };
        Ok(Some((config, entries)))
    }

    /// Reads the next line, and gives its entry where it may follow those before it. After anything else nothing comes.
    pub fn next<R: Source>(&mut self, reader: &mut R) -> Result<Next, TextFault>
        // An entry that is given stands behind those before it.
        ensures takes { IfOk result (TakesNext self.old.auditor self.new.auditor) }

        // What is given, in order, is what the journal's lines stand for; at the end it is all of them, and else the
        // first line that is wrong is told by its number.
        ensures gives { IfOk result (λ next. (before : Option (List ℕ)) →
            HasGiven before (R.remaining reader.old) self.old →
            IsNext before (R.remaining reader.new) self.old self.new next) }

        // A failed read is told where one has failed, and a journal is too long only above 2^44 entries or where a line
        // has more bytes than 64 bits can count.
        ensures stops { IfErr result (λ fault. (before : Option (List ℕ)) →
            HasGiven before (R.remaining reader.old) self.old →
            StopsJournal before (R.remaining reader.new) fault) }
        ensures failed { FailsBy TextFault.Input result
            (R.has_failed reader.old) (R.has_failed reader.new) }

        // A line that is told as bad is the one that was read, and is shown where it is not long.
        ensures shows { IfOk result (ShowsBad (untold self.old.lines (R.remaining reader.old))
            (untold self.new.lines (R.remaining reader.new)) self.new) }
    {
        self.is_long = false;
        match self.lines.next_whole(reader) {
            Ok(Whole::Line) => {}
            Ok(Whole::Long) => {
                self.is_long = true;
                return Ok(Next::Bad(self.auditor.taken() + 1));
            }
            Ok(Whole::Torn(bytes)) => return Ok(Next::End(bytes)),
            Err(fault) => return Err(fault),
        }
        match take_line(self.alloc, &mut self.auditor, self.lines.line()) {
            Ok(Taken::Entry(entry)) => return Ok(Next::Entry(entry)),
            Ok(Taken::Illegal) => return Ok(Next::Illegal(self.auditor.taken())),
            Ok(Taken::NoEntry) => {}
            Err(fault) => return Err(fault),
        }
        Ok(Next::Bad(self.auditor.taken() + 1))
    }

    /// The line that was read last, where it is not long.
    pub fn line(&self) -> Option<&[u8]>
        ensures { MatchOption result (told_last self.now ≡ Long)
            (λ line. (told_last self.now ≡ Line) × (line.now ≡ self.now.lines.line)) }
    {
        if self.is_long {
            return None;
        }
        Some(self.lines.line())
    }
}
