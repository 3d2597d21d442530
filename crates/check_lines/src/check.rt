//! The check of any file, from its bytes to what is written of it.

ghost use Rattle.std.specs.Prelude.{IfOk, IfErr};
ghost use Rattle.text_stream.specs.RunFault.{TellsFailedRead, TellsFailedWrite, WritesLast};
ghost use Rattle.check_lines.specs.Front.{unread_of, failed_of};
ghost use Rattle.check_lines.specs.Check.{ChecksDocument, ChecksAsJournal, ChecksAs, StopsAs, ChecksAny, StopsAny};
ghost use Rattle.check_lines.specs.Live.{ChecksLive, StopsLive};
ghost use Rattle.journal_entries.specs.End.{StopsCommand};
ghost use Rattle.check_lines.specs.Document.{StopsCheck};

use crate::document::run_check;
use crate::form::CheckForm;
use crate::front::Front;
use crate::journal::{JournalReport, read_journal};
use crate::kind::{FileKind, kind_of_front};
use crate::live::read_live;
use crate::told_as::{put_journal_as, put_live_as};
use crate::verdict::Verdict;
use crate::words::words_on_front;
use journal_entries::EntriesEnd;
use std::alloc::{AllocError, Global};
use text_stream::{RunFault, Sink, Source, TextFault};

// The check of a document.
#[inline(never)]
fn check_document<R: Source, W: Sink>(
    alloc: Global,
    form: CheckForm,
    reader: &mut R,
    writer: &mut W,
) -> Result<Verdict, RunFault>
    ensures ok { IfOk result (ChecksDocument form (R.remaining reader.old) (R.remaining reader.new)
        (W.contents writer.old) (W.contents writer.new)) }
    ensures stops { IfErr result (StopsCheck (R.remaining reader.old) (R.remaining reader.new)) }
    ensures quiet { WritesLast result writer.old writer.new }
    ensures failed_read { TellsFailedRead result
        (R.has_failed reader.old) (R.has_failed reader.new) }
    ensures failed_write { TellsFailedWrite result
        (W.has_failed writer.old) (W.has_failed writer.new) }
{
    match run_check(alloc, form, reader, writer) {
        Ok(found) => Ok(Verdict::Document(found)),
        Err(fault) => Err(fault),
    }
}

// The words on a journal whose first bytes were looked at.
fn words_of(alloc: Global, report: JournalReport, front: &[u8]) -> Result<String, AllocError> {
    match report.end {
        EntriesEnd::Bad(0) => words_on_front(alloc, front),
        _ => Ok(report.words),
    }
}

// The check of a journal.
#[inline(never)]
fn check_journal<R: Source, W: Sink>(
    alloc: Global,
    form: CheckForm,
    reader: &mut Front<R>,
    writer: &mut W,
) -> Result<Verdict, RunFault>
    ensures ok { IfOk result (ChecksAsJournal form (unread_of R.remaining reader.old)
        (unread_of R.remaining reader.new) (W.contents writer.old) (W.contents writer.new)) }
    ensures stops { IfErr result (StopsCommand (unread_of R.remaining reader.old)
        (unread_of R.remaining reader.new)) }
    ensures quiet { WritesLast result writer.old writer.new }
    ensures failed_read { TellsFailedRead result
        (failed_of R.has_failed reader.old) (failed_of R.has_failed reader.new) }
    ensures failed_write { TellsFailedWrite result
        (W.has_failed writer.old) (W.has_failed writer.new) }
{
    let report = read_journal(alloc, reader)?;
    let (end, entries) = (report.end, report.entries);
    let Ok(words) = words_of(alloc, report, reader.looked_at()) else {
        return Err(RunFault::Text(TextFault::Memory));
    };
    put_journal_as(alloc, writer, form, end, entries, words.as_str())?;
    Ok(Verdict::Journal(end))
}

// The check of the input of a conversation.
#[inline(never)]
fn check_live<R: Source, W: Sink>(
    alloc: Global,
    form: CheckForm,
    reader: &mut R,
    writer: &mut W,
) -> Result<Verdict, RunFault>
    ensures ok { IfOk result (ChecksLive form (R.remaining reader.old) (R.remaining reader.new)
        (W.contents writer.old) (W.contents writer.new)) }
    ensures stops { IfErr result (StopsLive (R.remaining reader.old) (R.remaining reader.new)) }
    ensures quiet { WritesLast result writer.old writer.new }
    ensures failed_read { TellsFailedRead result
        (R.has_failed reader.old) (R.has_failed reader.new) }
    ensures failed_write { TellsFailedWrite result
        (W.has_failed writer.old) (W.has_failed writer.new) }
{
    let report = read_live(alloc, reader)?;
    put_live_as(alloc, writer, form, &report)?;
    Ok(report.verdict())
}

// The check of a file of this kind, whose first bytes were looked at.
fn check_as<R: Source, W: Sink>(
    alloc: Global,
    form: CheckForm,
    kind: FileKind,
    reader: &mut Front<R>,
    writer: &mut W,
) -> Result<Verdict, RunFault>
    ensures ok { IfOk result (ChecksAs form kind (unread_of R.remaining reader.old)
        (unread_of R.remaining reader.new) (W.contents writer.old) (W.contents writer.new)) }
    ensures stops { IfErr result (StopsAs kind (unread_of R.remaining reader.old)
        (unread_of R.remaining reader.new)) }
    ensures quiet { WritesLast result writer.old writer.new }
    ensures failed_read { TellsFailedRead result
        (failed_of R.has_failed reader.old) (failed_of R.has_failed reader.new) }
    ensures failed_write { TellsFailedWrite result
        (W.has_failed writer.old) (W.has_failed writer.new) }
{
    match kind {
        FileKind::Document => check_document(alloc, form, reader, writer),
        FileKind::Journal => check_journal(alloc, form, reader, writer),
        FileKind::Live => check_live(alloc, form, reader, writer),
    }
}

/// Reads a file to the reader's end: a document, as [`run_check`] does, or a journal or the input of a conversation by
/// lines, in the memory of a scheduler's state and of one line, whatever its length. Which of these it is, its first
/// 196608 bytes say: the line behind the configuration. Writes what is found: of a document and of a faulty
/// configuration the line by which the command for it would end; that a journal is legal, or its first line that is
/// wrong; how many lines of a conversation are bad, and the first 20 of them. Words stand behind each line that is
/// wrong. Or the same is an object in JSON.
pub fn run_check_any<R: Source, W: Sink>(
    alloc: Global,
    form: CheckForm,
    reader: &mut Front<R>,
    writer: &mut W,
) -> Result<Verdict, RunFault>
    // The file was checked as the kind that its first bytes begin, and what was found is so.
    ensures ok { IfOk result (ChecksAny form (unread_of R.remaining reader.old)
        (unread_of R.remaining reader.new) (W.contents writer.old) (W.contents writer.new)) }

    // Each fault comes under its own condition.
    ensures stops { IfErr result (StopsAny (unread_of R.remaining reader.old)
        (unread_of R.remaining reader.new)) }
    ensures quiet { WritesLast result writer.old writer.new }

    // A failed read or write is told where one has failed, and where all went well none did.
    ensures failed_read { TellsFailedRead result
        (failed_of R.has_failed reader.old) (failed_of R.has_failed reader.new) }
    ensures failed_write { TellsFailedWrite result
        (W.has_failed writer.old) (W.has_failed writer.new) }
{
    reader.look()?;
    let kind = kind_of_front(alloc, reader.first())?;
    check_as(alloc, form, kind, reader, writer)
}
