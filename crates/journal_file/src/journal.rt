//! A journal in a file.

ghost use Rattle.std.specs.Prelude.{◌≡◌, flat_map, OnOk};
ghost use Rattle.std.specs.List.{AllByRecursion};
ghost use Rattle.sched_calls.specs.Reply.{IsEncodable};
ghost use Rattle.history_writing.specs.Journal.{entry_line};
ghost use Rattle.journal_file.specs.Place.{IsReadyAt, IsBegunAt};
ghost use Rattle.journal_file.specs.Journal.{FileStandsFor, FileMayBegin, FileMayRefuse, file_failed};

use crate::fault::FileFault;
use crate::found::read_store;
use crate::lacking::lacking;
use crate::line_file::LineFile;
use crate::notes::{Note, Notes};
use crate::place::Place;
use crate::store::Store;
use history_writing::{add_entry, opening_text};
use live_command::{BeginFault, Journal, RecordFault};
use minislots::Checked;
use sched_history::{Entry, Scheduler};
use std::alloc::{AllocError, Global};

/// A journal in a file.
#[derive(Drop)]
pub struct FileJournal<S, N> {
    file: LineFile<S>,
    // Where it is told how it is resumed.
    notes: N,
    // The lines that are put there by one write.
    text: Vec<u8>,
    // How many bytes were put there by calls that went well.
    written: u64,
    alloc: Global,
}

// Puts the lines of entries in place of a text.
fn put_lines(alloc: Global, text: &mut Vec<u8>, entries: &[Entry]) -> Result<(), AllocError>
    requires { AllByRecursion (λ e. IsEncodable e.reply) entries.now }
    ensures { OnOk result (text.new.items ≡ flat_map entry_line entries.now) }
{
    text.clear();
    for entry in entries {
        add_entry(alloc, text, entry)?;
    }
    Ok(())
}

impl<S: Store, N: Notes> FileJournal<S, N> {
    ghost use Rattle.std.specs.Prelude.{◌≡◌, true, IfOk, IfErr, OnOk, OnErr};
    ghost use Rattle.std.specs.List.{AllByRecursion};
    ghost use Rattle.minislots.specs.declared.config.Config.{Config as Configuration};
    ghost use Rattle.sched_calls.specs.Reply.{IsEncodable};
    ghost use Rattle.live_command.specs.Journal.{Keeps, Grows, GrowsInPart, FailsJustBy};
    ghost use Rattle.journal_file.specs.declared.place.Place.TheVariants.{NoLine, Resumed, Whole};
    ghost use Rattle.journal_file.specs.Journal.{View, store_of, notes_in, is_synced, file_failed, IsUntouched};
    ghost use Rattle.journal_file.specs.Journal.{FileStandsFor, FileMayBegin, FileMayRefuse};
    ghost use Rattle.journal_file.specs.Found.{IsFound, StopsFile};
    ghost use Rattle.journal_file.specs.Notes.{told_more};
    ghost use Rattle.journal_file.specs.Standing.{notes_of};

    /// A journal in this file, which is not read yet. What is put there reaches the device too where that is asked for,
    /// and how it is resumed is told to these notes.
    pub fn new(alloc: Global, store: S, notes: N, syncs: bool) -> FileJournal<S, N>
        ensures store { store_of result ≡ store }
        ensures notes { notes_in result ≡ notes }
        ensures asked { is_synced result ≡ syncs }
        ensures failed { file_failed S.has_failed S.may_misread result ≡ S.has_failed store }
    {
        FileJournal {
            file: LineFile {
                store,
                place: Place::Unread,
                is_synced: syncs,
                misread: false,
            },
            notes,
            text: Vec::new(alloc),
            written: 0,
            alloc,
        }
    }

    /// The file.
    pub fn store(&self) -> &S
        ensures { result.now ≡ store_of self.now }
    {
        &self.file.store
    }

    /// Reads the file: the scheduler that continues behind it, or none where it has no whole line. Nothing of the file
    /// is changed.
    pub(crate) fn read(&mut self) -> Result<Option<Scheduler>, FileFault>
        ensures found { IfOk result (λ scheduler.
            IsFound (S.contents (store_of self.old)) scheduler self.new.file.place) }
        ensures stops { IfErr result
            (StopsFile (S.contents (store_of self.old)) S.may_misread) }
        ensures same { IsUntouched self.old self.new }
        ensures asked { is_synced self.new ≡ is_synced self.old }
        ensures failed { self.new.file.misread ≡ self.old.file.misread }
    {
        let (scheduler, place) = read_store(self.alloc, &self.file.store)?;
        self.file.place = place;
        Ok(scheduler)
    }

    // Begins a file without a whole line.
    #[tactic(auto, using(crate::proofs::Finding::or_second))]
    fn put_opening(&mut self, size: u64, config: &Checked) -> Result<(), BeginFault>
        requires { self.old.file.place ≡ NoLine size }
        ensures begun { OnOk result (self.new.file.place ≡ Whole) }
        ensures ok { OnOk result ((v : View) → Keeps
            (FileMayBegin S.contents S.reached N.told self.old v config.now)
            (FileStandsFor S.contents S.reached N.told self.new v config.now)) }
        ensures err { OnErr result ((v : View) → Keeps
            (FileMayBegin S.contents S.reached N.told self.old v config.now)
            (FileMayBegin S.contents S.reached N.told self.new v config.now)) }
        ensures refused { IfErr result
            (FileMayRefuse S.contents S.reached N.told self.old config.now) }
        ensures failed { FailsJustBy BeginFault.Failed result
            (file_failed S.has_failed S.may_misread self.old)
            (file_failed S.has_failed S.may_misread self.new) }
    {
        let Ok(opening) = opening_text(self.alloc, &config.config()) else {
            return Err(BeginFault::Memory);
        };
        let rest = match lacking(&self.file.store, size, &opening) {
            Ok(rest) => rest,
            Err(BeginFault::Failed) => {
                self.file.misread = true;
                return Err(BeginFault::Failed);
            }
            Err(fault) => return Err(fault),
        };
        self.file.put(rest)?;
        self.written = self.written.saturating_add(rest.len() as u64);
        Ok(())
    }

    // Tells how it is resumed: behind so many entries, and so many torn bytes that were cut off.
    fn tell(&mut self, entries: u64, torn: u64)
        ensures told { N.told self.new.notes
            ≡ told_more (N.told self.old.notes) (notes_of entries torn) }
        ensures frame { self.new ≡ record self.old { notes = self.new.notes } }
    {
        self.notes.tell(Note::Resumed(entries));
        if torn != 0 {
            self.notes.tell(Note::Cut(torn));
        }
    }

    // Makes a journal ready that was found: what is torn is cut off, and all of it has reached the device where that is
    // asked for, before it is told how it is resumed.
    #[tactic(auto, using(crate::proofs::Finding::or_second))]
    fn resume(&mut self, entries: u64, end: u64, torn: u64) -> Result<(), BeginFault>
        requires { self.old.file.place ≡ Resumed entries end torn }
        ensures begun { OnOk result (self.new.file.place ≡ Whole) }
        ensures ok { OnOk result ((v : View) (c : Configuration) → Keeps
            (FileMayBegin S.contents S.reached N.told self.old v c)
            (FileStandsFor S.contents S.reached N.told self.new v c)) }
        ensures err { OnErr result ((v : View) (c : Configuration) → Keeps
            (FileMayBegin S.contents S.reached N.told self.old v c)
            (FileMayBegin S.contents S.reached N.told self.new v c)) }
        ensures refused { IfErr result (λ e. e ≡ BeginFault.Failed) }
        ensures failed { FailsJustBy BeginFault.Failed result
            (file_failed S.has_failed S.may_misread self.old)
            (file_failed S.has_failed S.may_misread self.new) }
    {
        self.file.cut(end, torn)?;
        self.tell(entries, torn);
        Ok(())
    }

    // Puts the lines of entries behind those of the file, by one write where the system takes them at once.
    #[tactic(auto, using(crate::proofs::Finding::or_second, crate::proofs::Standing::grown_none))]
    fn put_entries(&mut self, entries: &[Entry]) -> Result<(), RecordFault>
        requires ready { self.old.file.place ≡ Whole }
        requires encodable { AllByRecursion (λ e. IsEncodable e.reply) entries.now }
        ensures begun { IsBegunAt self.new.file.place
            (file_failed S.has_failed S.may_misread self.new) }
        ensures ok { OnOk result ((v : View) (c : Configuration) → Grows
            (FileStandsFor S.contents S.reached N.told self.old v c)
            (FileStandsFor S.contents S.reached N.told self.new v c) entries.now) }
        ensures err { OnErr result ((v : View) (c : Configuration) → GrowsInPart
            (FileStandsFor S.contents S.reached N.told self.old v c)
            (FileStandsFor S.contents S.reached N.told self.new v c) entries.now) }
        ensures failed { FailsJustBy RecordFault.Failed result
            (file_failed S.has_failed S.may_misread self.old)
            (file_failed S.has_failed S.may_misread self.new) }
    {
        if put_lines(self.alloc, &mut self.text, entries).is_err() {
            return Err(RecordFault::Memory);
        }
        let bytes = self.text.len() as u64;
        self.file.put(&self.text)?;
        self.written = self.written.saturating_add(bytes);
        Ok(())
    }
}

impl<S: Store, N: Notes> Journal for FileJournal<S, N> {
    ghost View = { Rattle.journal_file.specs.Journal.View };

    ghost stands_for = { FileStandsFor S.contents S.reached N.told };

    ghost may_begin = { FileMayBegin S.contents S.reached N.told };

    ghost may_refuse = { FileMayRefuse S.contents S.reached N.told };

    ghost is_ready = { λ j. IsReadyAt j.file.place };

    ghost is_begun = { λ j. IsBegunAt j.file.place (file_failed S.has_failed S.may_misread j) };

    ghost has_failed = { file_failed S.has_failed S.may_misread };

    ghost written = { λ j. j.written };

    fn begin(&mut self, config: &Checked) -> Result<(), BeginFault> {
        match self.file.place {
            Place::NoLine(size) => self.put_opening(size, config),
            Place::Resumed { entries, end, torn } => self.resume(entries, end, torn),
            _ => unreachable!(),
        }
    }

    fn record(&mut self, entries: &[Entry]) -> Result<(), RecordFault> {
        match self.file.place {
            Place::Whole if entries.is_empty() => Ok(()),
            Place::Whole => self.put_entries(entries),
            Place::Failed => Err(RecordFault::Failed),
            _ => unreachable!(),
        }
    }

    fn written(&self) -> u64 {
        self.written
    }
}
