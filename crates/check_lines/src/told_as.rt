//! What is written of a file, in the form that is asked for.

ghost use Rattle.std.specs.Prelude.{◌≡◌, ◌⊎◌, List, ℕ, IfOk, IfErr, OnOk};
ghost use Rattle.std.specs.Io.KnownBytes.{Appends};
ghost use Rattle.text_stream.specs.RunFault.{TellsFailedWrite, WritesLast};
ghost use Rattle.text_stream.specs.Writing.{Writes};
ghost use Rattle.check_lines.specs.declared.form.CheckForm.TheVariants.{Lines, Json};
ghost use Rattle.check_lines.specs.Forms.{document_as, journal_as, live_as};

use crate::document::put_report;
use crate::form::CheckForm;
use crate::live::LiveReport;
use crate::object_lines::{document_line, journal_line, opening_line, talk_line};
use crate::text::{put_faulty, put_journal, put_talk};
use journal_entries::EntriesEnd;
use json_fields::forms::Kind;
use std::alloc::{AllocError, Global};
use text_stream::{RunFault, Sink, TextFault, put};

/// Writes what is said of a document of this kind, in which this fault is found, or none; with words.
pub(crate) fn put_document_as<W: Sink>(
    alloc: Global,
    writer: &mut W,
    form: CheckForm,
    kind: Kind,
    found: Option<TextFault>,
    words: &str,
) -> Result<(), RunFault>
    ensures ok { OnOk result (Appends (W.contents writer.old) (W.contents writer.new)
        (document_as form kind found words.now)) }
    ensures err { IfErr result
        (λ e. (e ≡ RunFault.Text TextFault.Memory) ⊎ (e ≡ RunFault.Text TextFault.Output)) }
    ensures quiet { WritesLast result writer.old writer.new }
    ensures failed { TellsFailedWrite result (W.has_failed writer.old) (W.has_failed writer.new) }
{
    match form {
        CheckForm::Lines => {
            put_report(writer, kind, found, words.as_bytes())?;
            Ok(())
        }
        CheckForm::Json => {
            let Ok(line) = document_line(alloc, kind, found, words) else {
                return Err(RunFault::Text(TextFault::Memory));
            };
            put(writer, &line)?;
            Ok(())
        }
    }
}

/// Writes what is said of a journal that ends so, with so many entries where it is legal; with words.
pub(crate) fn put_journal_as<W: Sink>(
    alloc: Global,
    writer: &mut W,
    form: CheckForm,
    end: EntriesEnd,
    entries: u64,
    words: &str,
) -> Result<(), RunFault>
    ensures ok { OnOk result (Appends (W.contents writer.old) (W.contents writer.new)
        (journal_as form end entries words.now)) }
    ensures err { IfErr result
        (λ e. (e ≡ RunFault.Text TextFault.Memory) ⊎ (e ≡ RunFault.Text TextFault.Output)) }
    ensures quiet { WritesLast result writer.old writer.new }
    ensures failed { TellsFailedWrite result (W.has_failed writer.old) (W.has_failed writer.new) }
{
    match form {
        CheckForm::Lines => {
            put_journal(writer, end, entries, words.as_bytes())?;
            Ok(())
        }
        CheckForm::Json => {
            let Ok(line) = journal_line(alloc, end, entries, words) else {
                return Err(RunFault::Text(TextFault::Memory));
            };
            put(writer, &line)?;
            Ok(())
        }
    }
}

// What is said of a conversation in lines.
fn put_live<W: Sink>(writer: &mut W, report: &LiveReport) -> Result<(), TextFault>
    ensures { Writes W.contents W.has_failed writer.old writer.new
        (live_as Lines report.now) result }
{
    match report {
        LiveReport::Talk(talk) => put_talk(writer, talk),
        LiveReport::Faulty(fault, place, words) => {
            put_faulty(writer, *fault, *place, words.as_bytes())
        }
    }
}

// The line of JSON for a conversation.
fn live_line(alloc: Global, report: &LiveReport) -> Result<Vec<u8>, AllocError>
    ensures { IfOk result (λ text. text.items ≡ live_as Json report.now) }
{
    match report {
        LiveReport::Talk(talk) => talk_line(alloc, talk),
        LiveReport::Faulty(fault, place, words) => opening_line(
            alloc,
            *fault,
            *place,
            words.as_str(),
        ),
    }
}

/// Writes what is said of a conversation.
pub(crate) fn put_live_as<W: Sink>(
    alloc: Global,
    writer: &mut W,
    form: CheckForm,
    report: &LiveReport,
) -> Result<(), RunFault>
    ensures ok { OnOk result (Appends (W.contents writer.old) (W.contents writer.new)
        (live_as form report.now)) }
    ensures err { IfErr result
        (λ e. (e ≡ RunFault.Text TextFault.Memory) ⊎ (e ≡ RunFault.Text TextFault.Output)) }
    ensures quiet { WritesLast result writer.old writer.new }
    ensures failed { TellsFailedWrite result (W.has_failed writer.old) (W.has_failed writer.new) }
{
    match form {
        CheckForm::Lines => {
            put_live(writer, report)?;
            Ok(())
        }
        CheckForm::Json => {
            let Ok(line) = live_line(alloc, report) else {
                return Err(RunFault::Text(TextFault::Memory));
            };
            put(writer, &line)?;
            Ok(())
        }
    }
}
