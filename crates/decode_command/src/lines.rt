//! The lines of an input, each of which is decoded.

ghost use Rattle.std.specs.Prelude.{◌≡◌, IfOk, IfErr};
ghost use Rattle.text_stream.specs.RunFault.{TellsFailedRead, TellsFailedWrite};
ghost use Rattle.decode_command.specs.Lines.{start_at, DecodedLines, StopsDecoding, stays_first, stays_well};

use crate::form::Form;
use crate::line::{decode_line, tell};
use std::alloc::Global;
use text_stream::{Lines, RunFault, Sink, Source, TextFault};

// Whether nothing was shown, behind a line of which this was found.
fn stays_first(is_first: bool, found: Option<bool>) -> bool
    ensures { result ≡ stays_first is_first found }
{
    is_first && found != Some(true)
}

// Whether no line was wrong, behind a line of which this was found.
fn stays_well(is_well: bool, found: Option<bool>) -> bool
    ensures { result ≡ stays_well is_well found }
{
    is_well && found != Some(false)
}

/// Reads lines to the reader's end and decodes each, as one that is read, without waiting for those behind it: the
/// payload or the frame that it is, or that stands behind the word `map`. What is shown of one is what
/// [`decode_text`](crate::decode_text) or [`decode_frame`](crate::decode_frame) writes, with an empty line between two.
/// Of a line that is none it is said to `errors` what those write, behind `line`, its number, counted from 1, and a
/// colon, and that it is a whole frame where it is one in the place of a payload; all goes on where saying it fails.
/// Empty lines, and what `run` and `live` print for other answers than MAPs, are passed over. Answers whether no line
/// was wrong.
pub fn decode_lines<R: Source, W: Sink, E: Sink>(
    alloc: Global,
    form: Form,
    columns: Option<u16>,
    reader: &mut R,
    writer: &mut W,
    errors: &mut E,
) -> Result<bool, RunFault>
    // All lines were decoded: what is shown of them was written, and nothing else, and what is wrong was said. True is
    // answered exactly where nothing is wrong.
    ensures ok { IfOk result (λ is_well. DecodedLines
        (start_at form columns (R.remaining reader.old) (W.contents writer.old) (E.contents errors.old))
        (R.remaining reader.new) (W.contents writer.new) (E.contents errors.new)
        (E.has_failed errors.new) is_well) }

    // Each fault comes under its own condition, behind the first lines, of which the same holds.
    ensures stops { IfErr result (λ fault. StopsDecoding
        (start_at form columns (R.remaining reader.old) (W.contents writer.old) (E.contents errors.old))
        (R.remaining reader.new) (W.contents writer.new) (E.contents errors.new)
        (E.has_failed errors.new) fault) }

    // A failed read or write is told where one has failed, and where all went well none did.
    ensures failed_read { TellsFailedRead result
        (R.has_failed reader.old) (R.has_failed reader.new) }
    ensures failed_write { TellsFailedWrite result
        (W.has_failed writer.old) (W.has_failed writer.new) }
{
    let Ok(mut lines) = Lines::new(alloc) else {
        return Err(RunFault::Text(TextFault::Memory));
    };
    let mut text = Vec::new(alloc);
    let (mut is_first, mut is_well) = (true, true);
    for line in 0..u64::MAX {
        let told = match lines.next(reader) {
            Ok(Some(told)) => told,
            Ok(None) => return Ok(is_well),
            Err(fault) => return Err(RunFault::Text(fault)),
        };
        text.clear();
        let Ok(found) = decode_line(alloc, form, columns, told, lines.line(), &mut text) else {
            return Err(RunFault::Text(TextFault::Memory));
        };
        tell(writer, errors, is_first, line + 1, found, &text)?;
        is_first = stays_first(is_first, found);
        is_well = stays_well(is_well, found);
    }
    Err(RunFault::Text(TextFault::TooLong))
}
