//! A text, or each line of an input, as JSON.

ghost use Rattle.std.specs.Prelude.{◌≡◌, ◌&&◌, ◌⊎◌, ◌≤◌, [], List, ℕ, length, IfOk, IfErr, Some};
ghost use Rattle.text_stream.specs.declared.TheConstants.{MAX_LINE};
ghost use Rattle.text_stream.specs.Told.{IsTold};
ghost use Rattle.text_stream.specs.RunFault.{TellsFailedRead, TellsFailedWrite, WritesLast};
ghost use Rattle.decode_command.specs.JsonLines.{PutsJson, BecomesJson, PutsLine, DecodedJson, StopsJson};

use crate::asked::asked_of;
use crate::decoded::{Decoded, is_well, text_as};
use crate::form::JsonForm;
use crate::json::push_json;
use std::alloc::{AllocError, Global};
use text_stream::{Lines, RunFault, Sink, Source, TextFault, Told, put};

// What becomes of a line that is not long: nothing, where it is passed over.
fn short_as(alloc: Global, form: JsonForm, line: &[u8]) -> Result<Option<Decoded>, AllocError>
    ensures { length line.now ≤ MAX_LINE → IfOk result (BecomesJson form line.now) }
{
    let Some(text) = asked_of(line) else {
        return Ok(None);
    };
    Ok(Some(text_as(alloc, form, text)?))
}

// What becomes of the line that was told last.
fn line_as(
    alloc: Global,
    form: JsonForm,
    told: Told,
    shown: &[u8],
) -> Result<Option<Decoded>, AllocError>
    ensures { IfOk result (λ outcome. (line : List ℕ) → IsTold line told shown.now
        → BecomesJson form line outcome) }
{
    match told {
        Told::Line => short_as(alloc, form, shown),
        Told::Long => Ok(Some(Decoded::Long)),
    }
}

// Puts what becomes of the line that was told last, which has this number, into an empty text. Answers whether it is
// not wrong.
fn push_told(
    alloc: Global,
    form: JsonForm,
    number: u64,
    told: Told,
    shown: &[u8],
    words: &mut Vec<u8>,
) -> Result<bool, AllocError>
    requires { words.old.items ≡ [] }
    ensures { IfOk result (λ is. (line : List ℕ) → IsTold line told shown.now
        → PutsLine form number line is words.new.items) }
{
    let Some(decoded) = line_as(alloc, form, told, shown)? else {
        return Ok(true);
    };
    push_json(words, Some(number), &decoded)?;
    Ok(is_well(&decoded))
}

// Puts what a text is into an empty one. Answers whether it is a payload, or a frame.
fn push_text_as(
    alloc: Global,
    form: JsonForm,
    text: &[u8],
    words: &mut Vec<u8>,
) -> Result<bool, AllocError>
    requires { words.old.items ≡ [] }
    ensures { IfOk result (λ is. PutsJson form text.now is (Some []) (Some words.new.items)) }
{
    let decoded = text_as(alloc, form, text)?;
    push_json(words, None, &decoded)?;
    Ok(is_well(&decoded))
}

/// Reads a text as hexadecimal, as [`decode_text`](crate::decode_text) and [`decode_frame`](crate::decode_frame) do,
/// and writes one line of JSON, an object: the fields of the MAP and its elements, with the two addresses of its frame;
/// the SID and the number of a request; or the fault, with its number, its place and what it means. Answers whether
/// the text is a payload, or a frame. Its faults are that memory runs out, before anything is written, and a failed
/// write.
pub fn decode_json<W: Sink>(
    alloc: Global,
    text: &str,
    form: JsonForm,
    writer: &mut W,
) -> Result<bool, RunFault>
    // What was written is the object of what the text is, and nothing else. True is answered exactly where that is no
    // fault.
    ensures shown { IfOk result (λ is. PutsJson form text.now is
        (W.contents writer.old) (W.contents writer.new)) }

    // No other fault ends it; out of memory only before anything is written.
    ensures err { IfErr result
        (λ e. (e ≡ RunFault.Text TextFault.Memory) ⊎ (e ≡ RunFault.Text TextFault.Output)) }
    ensures failed { TellsFailedWrite result (W.has_failed writer.old) (W.has_failed writer.new) }
    ensures quiet { WritesLast result writer.old writer.new }
{
    let mut words = Vec::new(alloc);
    let Ok(is) = push_text_as(alloc, form, text.as_bytes(), &mut words) else {
        return Err(RunFault::Text(TextFault::Memory));
    };
    put(writer, &words)?;
    Ok(is)
}

// Whether no line was wrong, behind one that is not or is.
fn stays_well(is_well: bool, is: bool) -> bool
    ensures { result ≡ (is_well && is) }
{
    is_well && is
}

/// Reads lines to the reader's end and decodes each, as [`decode_lines`](crate::decode_lines) does, and writes a line
/// of JSON for each that is not passed over, before it waits for the next: what [`decode_json`] writes, with the number
/// of the line, counted from 1. A wrong line has its object there too. Answers whether no line was wrong.
pub fn decode_json_lines<R: Source, W: Sink>(
    alloc: Global,
    form: JsonForm,
    reader: &mut R,
    writer: &mut W,
) -> Result<bool, RunFault>
    // All lines were decoded: their objects were written, and nothing else. True is answered exactly where none is of a
    // fault.
    ensures ok { IfOk result (DecodedJson form (R.remaining reader.old) (R.remaining reader.new)
        (W.contents writer.old) (W.contents writer.new)) }

    // Each fault comes under its own condition, behind the first lines, of which the same holds.
    ensures stops { IfErr result (StopsJson form (R.remaining reader.old) (R.remaining reader.new)
        (W.contents writer.old) (W.contents writer.new)) }

    // A failed read or write is told where one has failed, and where all went well none did.
    ensures failed_read { TellsFailedRead result
        (R.has_failed reader.old) (R.has_failed reader.new) }
    ensures failed_write { TellsFailedWrite result
        (W.has_failed writer.old) (W.has_failed writer.new) }
{
    let Ok(mut lines) = Lines::new(alloc) else {
        return Err(RunFault::Text(TextFault::Memory));
    };
    let mut words = Vec::new(alloc);
    let mut is_well = true;
    for line in 0..u64::MAX {
        let told = match lines.next(reader) {
            Ok(Some(told)) => told,
            Ok(None) => return Ok(is_well),
            Err(fault) => return Err(RunFault::Text(fault)),
        };
        words.clear();
        let Ok(is) = push_told(alloc, form, line + 1, told, lines.line(), &mut words) else {
            return Err(RunFault::Text(TextFault::Memory));
        };
        put(writer, &words)?;
        is_well = stays_well(is_well, is);
    }
    Err(RunFault::Text(TextFault::TooLong))
}
