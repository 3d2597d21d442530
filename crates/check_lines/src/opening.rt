//! The opening of a conversation, and the number of its line.

ghost use Rattle.std.specs.Prelude.{◌≡◌, IfOk, IfErr};
ghost use Rattle.text_stream.specs.Told.{untold};
ghost use Rattle.text_stream.specs.Watched.{FailsBy};
ghost use Rattle.check_lines.specs.Opening.{FindsNumbered, FindsOpening, IsOpening, StopsLines};

use crate::words::{words_on_config, words_on_long_config};
use json::Scratch;
use live_command::{is_told_spoken, opening_in};
use std::alloc::Global;
use text_stream::{Lines, Source, TextFault, Told};

/// The opening of a conversation.
#[derive(Drop)]
pub(crate) enum Opening {
    /// It is lawful, in the line of this number, counted from 1.
    Lawful(u64),
    /// It has this fault, in this line, where there is one; and words on it.
    Faulty(TextFault, Option<u64>, String),
}

// Tells the next line that is not blank, with its number, counted from 1; none where there is none.
fn next_numbered<R: Source>(
    lines: &mut Lines,
    reader: &mut R,
) -> Result<Option<(u64, Told)>, TextFault>
    ensures finds { IfOk result (FindsNumbered (untold lines.old (R.remaining reader.old))
        (untold lines.new (R.remaining reader.new)) lines.new) }
    ensures stops { IfErr result
        (StopsLines 0 (untold lines.old (R.remaining reader.old)) (R.remaining reader.new)) }
    ensures failed { FailsBy TextFault.Input result
        (R.has_failed reader.old) (R.has_failed reader.new) }
{
    for before in 0..u64::MAX {
        match lines.next(reader) {
            Ok(Some(told)) => {
                if is_told_spoken(told, lines.line()) {
                    return Ok(Some((before + 1, told)));
                }
            }
            Ok(None) => return Ok(None),
            Err(fault) => return Err(fault),
        }
    }
    Err(TextFault::TooLong)
}

// What the text of an opening is, in the line of this number.
fn read_text(
    alloc: Global,
    scratch: &mut Scratch,
    number: u64,
    line: &[u8],
) -> Result<Opening, TextFault>
    ensures ok { IfOk result (IsOpening number line.now) }
    ensures err { IfErr result (λ e. e ≡ TextFault.Memory) }
{
    match opening_in(alloc, scratch, line) {
        Ok(_) => Ok(Opening::Lawful(number)),
        Err(TextFault::Memory) => Err(TextFault::Memory),
        Err(fault) => Ok(Opening::Faulty(
            fault,
            Some(number),
            words_on_config(alloc, number, line)?,
        )),
    }
}

/// Reads the opening: the first line that is not blank.
pub(crate) fn read_opening<R: Source>(
    alloc: Global,
    scratch: &mut Scratch,
    lines: &mut Lines,
    reader: &mut R,
) -> Result<Opening, TextFault>
    ensures finds { IfOk result (FindsOpening (untold lines.old (R.remaining reader.old))
        (untold lines.new (R.remaining reader.new))) }
    ensures stops { IfErr result
        (StopsLines 0 (untold lines.old (R.remaining reader.old)) (R.remaining reader.new)) }
    ensures failed { FailsBy TextFault.Input result
        (R.has_failed reader.old) (R.has_failed reader.new) }
{
    match next_numbered(lines, reader) {
        Ok(Some((number, Told::Line))) => read_text(alloc, scratch, number, lines.line()),
        Ok(Some((number, Told::Long))) => Ok(Opening::Faulty(
            TextFault::TooLong,
            Some(number),
            words_on_long_config(alloc, number)?,
        )),
        Ok(None) => Ok(Opening::Faulty(TextFault::NotJson, None, String::new(alloc))),
        Err(fault) => Err(fault),
    }
}
