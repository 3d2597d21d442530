//! The whole of a conversation with a journal in a file.

ghost use Rattle.std.specs.Prelude.{◌≡◌, false, IfErr, OnOk};
ghost use Rattle.live_command.specs.Failing.{FailsButFor};
ghost use Rattle.live_command.specs.Journal.{FailsJustBy};
ghost use Rattle.live_command.specs.declared.fault.LiveFault.TheVariants.{Text, Journal as Failed};
ghost use Rattle.text_stream.specs.declared.fault.TextFault.TheVariants.{Input, TooLong, Output};
ghost use Rattle.journal_file.specs.declared.fault.JournalFault.TheVariants.{Live};
ghost use Rattle.journal_file.specs.Journal.{Medium, store_of, view_of, file_failed, is_whole, IsUntouched};
ghost use Rattle.journal_file.specs.Journal.{FileStandsFor, FileMayBegin};
ghost use Rattle.journal_file.specs.Refusing.{RefusesBytes};
ghost use Rattle.journal_file.specs.Whole.{HeldAll, EndsEarly};

use crate::fault::JournalFault;
use crate::journal::FileJournal;
use crate::notes::Notes;
use crate::store::Store;
use live_command::{LiveFault, Wording, go_on, hold};
use std::alloc::Global;
use text_stream::{Lines, Sink, Source, TextFault};

/// Holds a conversation with a journal in a file, from the opened file on: reads the file, continues behind the journal
/// that it is, or begins one where it has no whole line, and answers the lines of an input to its end. Each entry is in
/// the file before a byte of its answer is written, and on the device too where that is asked for.
pub fn live_journal<S: Store, N: Notes, R: Source, W: Sink>(
    alloc: Global,
    journal: &mut FileJournal<S, N>,
    reader: &mut R,
    writer: &mut W,
    wording: Wording,
) -> Result<(), JournalFault>
    // All lines were answered: behind what was found of a journal, which stays as it was found but for what is torn, or
    // in a file that had the first bytes of the opening's line at most, stand the entries of the calls, in the file,
    // and on the device where that is asked for.
    ensures ok { OnOk result ((medium : Medium) → HeldAll wording
        (S.contents (store_of journal.old)) (R.remaining reader.old) (R.remaining reader.new)
        (W.contents writer.old) (W.contents writer.new)
        (FileStandsFor S.contents S.reached N.told journal.new
        (view_of S.contents S.reached N.told journal.old medium))) }
    ensures whole { OnOk result
        (file_failed S.has_failed S.may_misread journal.old ≡ false → is_whole journal.new) }

    // Else the file is no journal, no opening was read, or the journal was not begun, and nothing was written; or the
    // conversation ended early, and the entry of each answer of which a byte was written is there.
    ensures ends { IfErr result (λ e. (medium : Medium) → EndsEarly wording
        (S.contents (store_of journal.old)) S.may_misread (R.remaining reader.old) (R.remaining reader.new)
        (W.contents writer.old) (W.contents writer.new)
        (RefusesBytes (S.contents (store_of journal.old)))
        (FileMayBegin S.contents S.reached N.told journal.new
        (view_of S.contents S.reached N.told journal.old medium))
        (FileStandsFor S.contents S.reached N.told journal.new
        (view_of S.contents S.reached N.told journal.old medium))
        ((writer.new ≡ writer.old) × IsUntouched journal.old journal.new) (writer.new ≡ writer.old) e) }

    // A failed read or write is told exactly where one has failed, but that an input which is too long tells nothing of
    // reads; and a failed journal only where a call of its file has.
    ensures failed_read { FailsButFor (Live (Text Input)) (Live (Text TooLong)) result
        (R.has_failed reader.old) (R.has_failed reader.new) }
    ensures failed_write { FailsJustBy (Live (Text Output)) result
        (W.has_failed writer.old) (W.has_failed writer.new) }
    ensures failed_journal { FailsJustBy (Live Failed) result
        (file_failed S.has_failed S.may_misread journal.old)
        (file_failed S.has_failed S.may_misread journal.new) }
{
    match journal.read()? {
        None => hold(alloc, reader, writer, journal, wording)?,
        Some(mut scheduler) => {
            let Ok(mut lines) = Lines::new(alloc) else {
                return Err(JournalFault::Live(LiveFault::Text(TextFault::Memory)));
            };
            go_on(
                alloc,
                &mut scheduler,
                &mut lines,
                reader,
                writer,
                journal,
                wording,
            )?;
        }
    }
    Ok(())
}
