//! The command over what the program has: standard input, output and error, and the file of the journal.

use crate::end::{Cause, JournalEnd};
use crate::journal::FileJournal;
use crate::notes::ErrorNotes;
use crate::opening::open_journal;
use crate::whole::live_journal;
use live_command::Wording;
use std::fs::File;
use std::io;
use std::rt::Files;
use text_stream::Watched;

/// The command `live` with a journal in the file of this name: what is recorded reaches the device too where that is
/// asked for. Where it ends early, it is said what of the file failed, or has changed.
pub fn live_journal_input<'a, R: Files<File = File> + Input + Print + Eprint + AllocGlobal>(
    rt: &'a R,
    path: &'a str,
    wording: Wording,
    is_synced: bool,
) -> Result<(), JournalEnd<'a>> {
    let file = open_journal(rt, path, is_synced)?;
    let mut journal = FileJournal::new(rt.alloc(), file, ErrorNotes::new(rt), is_synced);
    let mut reader = Watched::new(rt.reader());
    let mut writer = Watched::new(io::writer(rt));
    match live_journal(rt.alloc(), &mut journal, &mut reader, &mut writer, wording) {
        Ok(()) => Ok(()),
        Err(fault) => Err(JournalEnd {
            path,
            cause: Cause::of(fault, journal.store().stop()),
        }),
    }
}
