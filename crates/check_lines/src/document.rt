//! The check of a document, from its text to the report.

ghost use Rattle.std.specs.Prelude.{◌≡◌, ◌++◌, IfOk, IfErr, option_map};
ghost use Rattle.sched_lines.specs.Line.{number_text};
ghost use Rattle.text_stream.specs.Writing.{Writes};
ghost use Rattle.text_stream.specs.RunFault.{TellsFailedRead, TellsFailedWrite, WritesLast};
ghost use Rattle.text_stream.specs.declared.run_fault.RunFault.TheVariants.{Text};
ghost use Rattle.check_lines.specs.Found.{fault_text, praise, verdict_text, verdict_line};
ghost use Rattle.check_lines.specs.Document.{Checks, StopsCheck};

use crate::form::CheckForm;
use crate::report::report_on;
use crate::told_as::put_document_as;
use json_fields::forms::Kind;
use sched_lines::put_number;
use std::alloc::Global;
use text_stream::{RunFault, Sink, Source, TextFault, field_number, put, read_all};

// What is said of a file without a fault.
fn praise(kind: Kind) -> &'static [u8]
    ensures { result.now ≡ praise kind }
{
    match kind {
        Kind::Script => b"good script",
        Kind::Storm => b"good script of a storm",
        Kind::History => b"good history",
    }
}

// A number behind words.
fn put_numbered<W: Sink>(writer: &mut W, words: &[u8], number: u64) -> Result<(), TextFault>
    ensures { Writes W.contents W.has_failed writer.old writer.new
        (words.now ++ number_text number) result }
{
    put(writer, words)?;
    put_number(writer, number)
}

/// Writes the text of a fault, as the program ends by it.
pub(crate) fn put_fault<W: Sink>(writer: &mut W, fault: TextFault) -> Result<(), TextFault>
    ensures { Writes W.contents W.has_failed writer.old writer.new (fault_text fault) result }
{
    match fault {
        TextFault::Input => put(writer, b"input failed"),
        TextFault::TooLong => put(writer, b"input too long"),
        TextFault::NotJson => put(writer, b"not json"),
        TextFault::Shape(number) => put_numbered(writer, b"bad script at", number),
        TextFault::Config(field) => put_numbered(
            writer,
            b"bad config",
            u64::from(field_number(field)),
        ),
        TextFault::Memory => put(writer, b"out of memory"),
        TextFault::Output => put(writer, b"output failed"),
    }
}

// What is said first of a file.
fn put_verdict<W: Sink>(
    writer: &mut W,
    kind: Kind,
    found: Option<TextFault>,
) -> Result<(), TextFault>
    ensures { Writes W.contents W.has_failed writer.old writer.new
        (verdict_text kind found) result }
{
    match found {
        None => put(writer, praise(kind)),
        Some(fault) => put_fault(writer, fault),
    }
}

/// Writes the first line, and words behind it.
#[tactic(auto, unfolding(crate::specs::Found::verdict_line))]
pub(crate) fn put_report<W: Sink>(
    writer: &mut W,
    kind: Kind,
    found: Option<TextFault>,
    words: &[u8],
) -> Result<(), TextFault>
    ensures { Writes W.contents W.has_failed writer.old writer.new
        (verdict_line kind found ++ words.now) result }
{
    put_verdict(writer, kind, found)?;
    put(writer, b"\n")?;
    put(writer, words)
}

// The fault by which a command ends.
fn told(found: Option<TextFault>) -> Option<RunFault>
    ensures { result ≡ option_map Text found }
{
    match found {
        None => None,
        Some(fault) => Some(RunFault::from(fault)),
    }
}

/// Reads a file to the reader's end, a script, the script of a storm or a history by its members, and answers the
/// fault by which `run`, `storm` or `audit` ends on the same bytes before it does anything, or none. Writes that fault
/// in one line, as those commands tell it, or that the file is good, and words on it behind: where the fault is and
/// what was expected, or what the file has; or the same as an object in JSON. Whether a history is legal and whether
/// calls are refused is not looked at.
pub(crate) fn run_check<R: Source, W: Sink>(
    alloc: Global,
    form: CheckForm,
    reader: &mut R,
    writer: &mut W,
) -> Result<Option<RunFault>, RunFault>
    // What is found is what the command for such a file finds, and that was written in the form that is asked for.
    ensures ok { IfOk result (Checks form (R.remaining reader.old) (R.remaining reader.new)
        (W.contents writer.old) (W.contents writer.new)) }

    // Each fault comes under its own condition, the first one in their order.
    ensures stops { IfErr result (StopsCheck (R.remaining reader.old) (R.remaining reader.new)) }
    ensures quiet { WritesLast result writer.old writer.new }

    // A failed read or write is told where one has failed, and where all went well none did.
    ensures failed_read { TellsFailedRead result
        (R.has_failed reader.old) (R.has_failed reader.new) }
    ensures failed_write { TellsFailedWrite result
        (W.has_failed writer.old) (W.has_failed writer.new) }
{
    let bytes = read_all(alloc, reader)?;
    let report = report_on(alloc, &bytes)?;
    put_document_as(
        alloc,
        writer,
        form,
        report.kind,
        report.fault,
        report.words.as_str(),
    )?;
    Ok(told(report.fault))
}
