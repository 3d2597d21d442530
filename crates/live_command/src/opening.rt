//! The opening of a conversation.

ghost use Rattle.std.specs.Prelude.{◌≡◌, ◌≤◌, length, IfOk, IfErr, Ok};
ghost use Rattle.text_stream.specs.declared.TheConstants.{MAX_LINE};
ghost use Rattle.text_stream.specs.Told.{untold};
ghost use Rattle.text_stream.specs.Input.{Gives};
ghost use Rattle.live_command.specs.Failing.{FailsButFor};
ghost use Rattle.live_command.specs.Opening.{config_said, opening_in, Opens, StopsOpening, FindsSpoken, StopsBefore};

use crate::blank::is_told_spoken;
use crate::said::{Said, read_said};
use json::Scratch;
use minislots::{Checked, Config};
use std::alloc::Global;
use text_stream::{Lines, Source, TextFault, Told};

// The configuration that is said.
fn config_said(said: Said) -> Result<Config, TextFault>
    ensures { result ≡ config_said said }
{
    match said {
        Said::Opening(Some(config)) => Ok(config),
        _ => Err(TextFault::Shape(0)),
    }
}

/// The configuration that the text of an opening says, where it is lawful.
#[tactic(auto, unfolding(crate::specs::Opening::opening_in))]
pub fn opening_in(alloc: Global, scratch: &mut Scratch, line: &[u8]) -> Result<Checked, TextFault>
    ensures { Gives (λ config. config) result (opening_in line.now) }
{
    let said = read_said(alloc, scratch, line)?;
    let config = config_said(said)?;
    let config = config.check()?;
    Ok(config)
}

/// Tells the next line that is not blank, to the end of which it reads on or not; none where there is none.
pub(crate) fn next_spoken<R: Source>(
    lines: &mut Lines,
    reader: &mut R,
    reads_on: bool,
) -> Result<Option<Told>, TextFault>
    ensures finds { IfOk result (FindsSpoken (untold lines.old (R.remaining reader.old))
        (untold lines.new (R.remaining reader.new)) lines.new) }
    ensures stops { IfErr result
        (StopsBefore reads_on (untold lines.old (R.remaining reader.old)) (R.remaining reader.new)) }
    ensures failed { FailsButFor TextFault.Input TextFault.TooLong result
        (R.has_failed reader.old) (R.has_failed reader.new) }
{
    for _ in 0..u64::MAX {
        let Some(told) = lines.next_reading(reader, reads_on)? else {
            return Ok(None);
        };
        if is_told_spoken(told, lines.line()) {
            return Ok(Some(told));
        }
    }
    Err(TextFault::TooLong)
}

/// Reads the opening: the first line that is not blank, of which no more is read once it is too long.
pub(crate) fn read_opening<R: Source>(
    alloc: Global,
    scratch: &mut Scratch,
    lines: &mut Lines,
    reader: &mut R,
) -> Result<Checked, TextFault>
    ensures ok { IfOk result (λ config. Opens (untold lines.old (R.remaining reader.old))
        (untold lines.new (R.remaining reader.new)) (Ok config)) }
    ensures stops { IfErr result
        (StopsOpening (untold lines.old (R.remaining reader.old)) (R.remaining reader.new)) }
    ensures failed { FailsButFor TextFault.Input TextFault.TooLong result
        (R.has_failed reader.old) (R.has_failed reader.new) }
{
    match next_spoken(lines, reader, false)? {
        Some(Told::Line) => opening_in(alloc, scratch, lines.line()),
        Some(Told::Long) => Err(TextFault::TooLong),
        None => Err(TextFault::NotJson),
    }
}
