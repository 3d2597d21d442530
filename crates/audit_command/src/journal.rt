//! The audit of a journal, line by line, to the line of its verdict.

ghost use Rattle.std.specs.Prelude.{IfOk, IfErr};
ghost use Rattle.text_stream.specs.Writing.{Writes};
ghost use Rattle.text_stream.specs.RunFault.{TellsFailedRead, TellsFailedWrite, WritesLast};
ghost use Rattle.audit_command.specs.JournalAudit.{AuditedJournal, StopsJournalAudit};
ghost use Rattle.audit_command.specs.JournalAudit.{legal_journal_text, illegal_journal_text};

use crate::explained_audit::explain_last;
use crate::form::JournalForm;
use crate::json::{put_illegal_json, put_legal_journal_json};
use journal_entries::{Judged, judge_journal};
use sched_lines::put_named;
use std::alloc::Global;
use text_stream::{RunFault, Sink, Source, TextFault, put};

/// How the audit of a journal ends.
#[derive(Clone, Copy, Debug, PartialEq, Eq)]
pub enum JournalEnd {
    /// It is legal. Behind its last newline stand so many bytes, which count for nothing.
    Legal(u64),
    /// One of its entries may not follow those before it.
    Illegal,
    /// This line, counted from 0, stands for nothing: the first for no lawful configuration, or a later one, before any
    /// illegal entry, for no entry.
    Bad(u64),
}

// Writes the verdict on a legal journal.
fn put_legal<W: Sink>(
    writer: &mut W,
    form: JournalForm,
    entries: u64,
    torn: u64,
) -> Result<(), TextFault>
    ensures { Writes W.contents W.has_failed writer.old writer.new
        (legal_journal_text form entries torn) result }
{
    match form {
        JournalForm::Line | JournalForm::Explained => put_named(writer, b"legal", entries),
        JournalForm::Json => put_legal_journal_json(writer, entries, torn),
    }
}

// Writes the verdict on another one.
fn put_illegal<W: Sink>(writer: &mut W, form: JournalForm, index: u64) -> Result<(), TextFault>
    ensures { Writes W.contents W.has_failed writer.old writer.new
        (illegal_journal_text form index) result }
{
    match form {
        JournalForm::Line | JournalForm::Explained => put_named(writer, b"illegal", index),
        JournalForm::Json => put_illegal_json(writer, index),
    }
}

/// Reads a journal, of any length, and audits it in the memory of a scheduler's state and of one line. Writes `legal`
/// and the number of its entries, or `illegal` and the first entry, counted from 0, whose reply the scheduler may not
/// give after the entries before it; or the same in JSON, of a legal one with the bytes behind its last newline. Where
/// words are asked for they stand behind the line of an illegal journal, as [`run_audit`](crate::run_audit) writes
/// them. Nothing is written where a line is bad, nor before another fault than one of output.
pub fn run_audit_journal<R: Source, W: Sink>(
    alloc: Global,
    reader: &mut R,
    writer: &mut W,
    form: JournalForm,
) -> Result<JournalEnd, RunFault>
    // What was written is the line of the verdict on the journal that was read, with words behind it where they are
    // asked for and it is illegal, and nothing else.
    ensures ok { IfOk result (AuditedJournal form (R.remaining reader.old) (R.remaining reader.new)
        (W.contents writer.old) (W.contents writer.new)) }

    // Each fault comes under its own condition.
    ensures stops { IfErr result
        (StopsJournalAudit (R.remaining reader.old) (R.remaining reader.new)) }
    ensures quiet { WritesLast result writer.old writer.new }

    // A failed read or write is told where one has failed, and where all went well none did.
    ensures failed_read { TellsFailedRead result
        (R.has_failed reader.old) (R.has_failed reader.new) }
    ensures failed_write { TellsFailedWrite result
        (W.has_failed writer.old) (W.has_failed writer.new) }
{
    match judge_journal(alloc, reader)? {
        Judged::Legal(auditor, torn) => {
            put_legal(writer, form, auditor.taken(), torn)?;
            Ok(JournalEnd::Legal(torn))
        }
        Judged::Illegal(index, entries) => {
            let Ok(words) = explain_last(alloc, form, index, entries) else {
                return Err(RunFault::Text(TextFault::Memory));
            };
            put_illegal(writer, form, index)?;
            put(writer, words.as_bytes())?;
            Ok(JournalEnd::Illegal)
        }
        Judged::Bad(line) => Ok(JournalEnd::Bad(line)),
    }
}
