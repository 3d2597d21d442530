//! What is decoded of a line, and what is told of it.

ghost use Rattle.std.specs.Prelude.{◌≡◌, ◌≤◌, [], List, ℕ, length, IfOk, IfErr, OnOk, Some, true};
ghost use Rattle.std.specs.Bool.{MatchBool};
ghost use Rattle.text_stream.specs.declared.TheConstants.{MAX_LINE};
ghost use Rattle.text_stream.specs.Told.{IsTold};
ghost use Rattle.text_stream.specs.Writing.{Writes};
ghost use Rattle.decode_command.specs.Line.{Decodes, Becomes, long_text, outcome_of, behind_gap, said_line};
ghost use Rattle.decode_command.specs.Line.{shown_one, said_one, Says, SaysFault, PointsToFrames};
ghost use Rattle.decode_command.specs.Table.{ShowsMap};

use crate::asked::asked_of;
use crate::form::Form;
use crate::frame::{decode_frame_digits, is_hex_of_frame};
use crate::table::{decode_digits, put_labelled};
use std::alloc::Global;
use text_stream::{RunFault, Sink, TextFault, Told, put};

/// What is said behind the fault of a text that is no payload, but a whole frame.
pub(crate) const FRAME_FOUND: &str = "this is a whole frame: use --frame\n";

// Puts behind the fault of a text that is no payload what is said where it is a whole frame.
fn point_to_frames(alloc: Global, text: &[u8], buffer: &mut Vec<u8>) -> Result<(), RunFault>
    ensures { OnOk result (PointsToFrames text.now buffer.old.items buffer.new.items) }
{
    if is_hex_of_frame(alloc, text)? {
        put(buffer, FRAME_FOUND.as_bytes())?;
    }
    Ok(())
}

// Decodes a text as a payload into an empty buffer.
fn decode_payload(
    alloc: Global,
    is_explained: bool,
    columns: Option<u16>,
    text: &[u8],
    buffer: &mut Vec<u8>,
) -> Result<bool, RunFault>
    requires { buffer.old.items ≡ [] }
    ensures { IfOk result (λ is. MatchBool is
        (ShowsMap columns text.now (Some []) (Some buffer.new.items))
        (SaysFault is_explained text.now buffer.new.items)) }
{
    if decode_digits(alloc, text, columns, is_explained, buffer)? {
        return Ok(true);
    }
    point_to_frames(alloc, text, buffer)?;
    Ok(false)
}

// Decodes a text into an empty buffer: whether it is a payload, or a frame.
fn decode_as(
    alloc: Global,
    form: Form,
    columns: Option<u16>,
    text: &[u8],
    buffer: &mut Vec<u8>,
) -> Result<bool, RunFault>
    requires { buffer.old.items ≡ [] }
    ensures { IfOk result (λ is. Decodes form columns text.now is buffer.new.items) }
{
    match form {
        Form::Payload => decode_payload(alloc, false, columns, text, buffer),
        Form::Explained => decode_payload(alloc, true, columns, text, buffer),
        Form::Frame => decode_frame_digits(alloc, text, columns, buffer),
    }
}

// What becomes of a line that is not long.
fn decode_short(
    alloc: Global,
    form: Form,
    columns: Option<u16>,
    line: &[u8],
    buffer: &mut Vec<u8>,
) -> Result<Option<bool>, TextFault>
    requires { buffer.old.items ≡ [] }
    ensures ok { IfOk result (λ found. length line.now ≤ MAX_LINE →
        Becomes form columns line.now (outcome_of found buffer.new.items)) }
    ensures err { IfErr result (λ e. e ≡ TextFault.Memory) }
{
    let Some(text) = asked_of(line) else {
        return Ok(None);
    };
    match decode_as(alloc, form, columns, text, buffer) {
        Ok(is) => Ok(Some(is)),
        Err(_) => Err(TextFault::Memory),
    }
}

// What is said of a long line.
fn long_text(form: Form) -> &'static [u8]
    ensures { result.now ≡ long_text form }
{
    match form {
        Form::Payload | Form::Frame => b"fault long\n",
        Form::Explained => b"fault long\nit has more than 65536 bytes\n",
    }
}

// What becomes of the line that was told last: nothing where it is passed over, and else whether it is a payload, or a
// frame; and what is told of it, in an empty buffer.
pub(crate) fn decode_line(
    alloc: Global,
    form: Form,
    columns: Option<u16>,
    told: Told,
    shown: &[u8],
    buffer: &mut Vec<u8>,
) -> Result<Option<bool>, TextFault>
    requires { buffer.old.items ≡ [] }
    ensures ok { IfOk result (λ found. (line : List ℕ) → IsTold line told shown.now →
        Becomes form columns line (outcome_of found buffer.new.items)) }
    ensures err { IfErr result (λ e. e ≡ TextFault.Memory) }
{
    match told {
        Told::Line => decode_short(alloc, form, columns, shown, buffer),
        Told::Long => {
            buffer.extend_from_slice(long_text(form))?;
            Ok(Some(false))
        }
    }
}

// Writes what is shown of a line, behind others or as the first.
fn put_shown<W: Sink>(writer: &mut W, is_first: bool, text: &[u8]) -> Result<(), TextFault>
    ensures { Writes W.contents W.has_failed writer.old writer.new
        (shown_one is_first (outcome_of (Some true) text.now)) result }
{
    if is_first {
        return put(writer, text);
    }
    put(writer, b"\n")?;
    put(writer, text)
}

// Writes what is said of the line of this number.
#[tactic(auto, unfolding(crate::specs::Line::said_line))]
fn put_said<E: Sink>(errors: &mut E, number: u64, text: &[u8]) -> Result<(), TextFault>
    ensures { Writes E.contents E.has_failed errors.old errors.new
        (said_line number text.now) result }
{
    put_labelled(errors, b"line ", number)?;
    put(errors, b": ")?;
    put(errors, text)
}

// Says what is to be said of the line of this number. Where that fails nobody hears it, and all goes on.
fn say<E: Sink>(errors: &mut E, number: u64, found: Option<bool>, text: &[u8])
    ensures { Says E.contents E.has_failed errors.old errors.new
        (said_one number (outcome_of found text.now)) }
{
    if let Some(false) = found {
        let _ = put_said(errors, number, text);
    }
}

// Writes what is to be shown of a line, behind others or as the first.
fn show<W: Sink>(
    writer: &mut W,
    is_first: bool,
    found: Option<bool>,
    text: &[u8],
) -> Result<(), TextFault>
    ensures { Writes W.contents W.has_failed writer.old writer.new
        (shown_one is_first (outcome_of found text.now)) result }
{
    match found {
        Some(true) => put_shown(writer, is_first, text),
        _ => Ok(()),
    }
}

// Tells what was found of the line of this number: shows it, or says what is wrong.
pub(crate) fn tell<W: Sink, E: Sink>(
    writer: &mut W,
    errors: &mut E,
    is_first: bool,
    number: u64,
    found: Option<bool>,
    text: &[u8],
) -> Result<(), TextFault>
    ensures shown { Writes W.contents W.has_failed writer.old writer.new
        (shown_one is_first (outcome_of found text.now)) result }
    ensures said { Says E.contents E.has_failed errors.old errors.new
        (said_one number (outcome_of found text.now)) }
{
    say(errors, number, found, text);
    show(writer, is_first, found, text)
}
