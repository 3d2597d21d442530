//! The audit of a history, from its text to the line of its verdict.

ghost use Rattle.std.specs.Prelude.{◌≡◌, ◌≤◌, length, IfOk, IfErr};
ghost use Rattle.sched_calls.specs.declared.reply.TheConstants.{MAX_ENTRIES};
ghost use Rattle.text_stream.specs.Writing.{Writes};
ghost use Rattle.text_stream.specs.RunFault.{TellsFailedRead, TellsFailedWrite, WritesLast};
ghost use Rattle.audit_command.specs.Verdict.{IsVerdict, is_legal, legal_text, illegal_text, verdict_line};
ghost use Rattle.audit_command.specs.Verdict.{Audited, StopsAudit};

use crate::explained_audit::explain;
use crate::form::AuditForm;
use crate::json::{put_illegal_json, put_legal_json};
use history_reading::read_history;
use minislots::Checked;
use sched_history::{AuditFault, Entry, audit};
use sched_lines::put_named;
use std::alloc::Global;
use text_stream::{RunFault, Sink, Source, TextFault, put};

/// What an audit says of a history.
#[derive(Clone, Copy)]
pub enum Verdict {
    /// It has so many entries, and each reply may follow the entries before it.
    Legal(usize),
    /// This entry, counted from 0, is the first whose reply may not.
    Illegal(usize),
}

// Audits a history.
fn judge(alloc: Global, config: &Checked, entries: &[Entry]) -> Result<Verdict, TextFault>
    requires few { length entries.now ≤ MAX_ENTRIES }
    ensures ok { IfOk result (IsVerdict config.now entries.now) }
    ensures err { IfErr result (λ e. e ≡ TextFault.Memory) }
{
    match audit(alloc, config, entries) {
        Ok(()) => Ok(Verdict::Legal(entries.len())),
        Err(AuditFault::Illegal(index)) => Ok(Verdict::Illegal(index)),
        Err(AuditFault::Memory) => Err(TextFault::Memory),
    }
}

// Writes the verdict on a legal history.
fn put_legal<W: Sink>(writer: &mut W, form: AuditForm, entries: u64) -> Result<(), TextFault>
    ensures { Writes W.contents W.has_failed writer.old writer.new
        (legal_text form entries) result }
{
    match form {
        AuditForm::Line | AuditForm::Explained => put_named(writer, b"legal", entries),
        AuditForm::Json => put_legal_json(writer, entries),
    }
}

// Writes the verdict on another one.
fn put_illegal<W: Sink>(writer: &mut W, form: AuditForm, index: u64) -> Result<(), TextFault>
    ensures { Writes W.contents W.has_failed writer.old writer.new
        (illegal_text form index) result }
{
    match form {
        AuditForm::Line | AuditForm::Explained => put_named(writer, b"illegal", index),
        AuditForm::Json => put_illegal_json(writer, index),
    }
}

// Writes the line of a verdict, and tells whether it is that of a legal history.
fn put_verdict<W: Sink>(
    writer: &mut W,
    form: AuditForm,
    verdict: Verdict,
) -> Result<bool, TextFault>
    ensures written { Writes W.contents W.has_failed writer.old writer.new
        (verdict_line form verdict) result }
    ensures legal { IfOk result (λ legal. legal ≡ is_legal verdict) }
{
    match verdict {
        Verdict::Legal(entries) => {
            put_legal(writer, form, entries as u64)?;
            Ok(true)
        }
        Verdict::Illegal(index) => {
            put_illegal(writer, form, index as u64)?;
            Ok(false)
        }
    }
}

/// Reads a history, a configuration and entries in JSON, to the reader's end, and audits it. Writes `legal` and the
/// number of its entries, or `illegal` and the first entry, counted from 0, whose reply the scheduler may not give
/// after the entries before it; or the same in JSON. Where words are asked for, behind the line of an illegal history
/// stand the call of the entry, the reply that it has, and one that the scheduler may give there; a MAP is shown as its
/// table, and the first lines in which the two replies differ are marked. Answers whether it is legal. Nothing is
/// written before another fault than one of output.
pub fn run_audit<R: Source, W: Sink>(
    alloc: Global,
    reader: &mut R,
    writer: &mut W,
    form: AuditForm,
) -> Result<bool, RunFault>
    // What was written is the line of the verdict on the history that was read, in this form, with words behind it
    // where they are asked for and it is illegal, and nothing else.
    ensures ok { IfOk result (Audited form (R.remaining reader.old) (R.remaining reader.new)
        (W.contents writer.old) (W.contents writer.new)) }

    // Each fault comes under its own condition, the first one in their order.
    ensures stops { IfErr result (StopsAudit (R.remaining reader.old) (R.remaining reader.new)) }
    ensures quiet { WritesLast result writer.old writer.new }

    // A failed read or write is told where one has failed, and where all went well none did.
    ensures failed_read { TellsFailedRead result
        (R.has_failed reader.old) (R.has_failed reader.new) }
    ensures failed_write { TellsFailedWrite result
        (W.has_failed writer.old) (W.has_failed writer.new) }
{
    let (config, entries) = read_history(alloc, reader)?;
    let verdict = judge(alloc, &config, &entries)?;
    let Ok(words) = explain(alloc, &config, &entries, verdict, form) else {
        return Err(RunFault::Text(TextFault::Memory));
    };
    let legal = put_verdict(writer, form, verdict)?;
    put(writer, words.as_bytes())?;
    Ok(legal)
}
