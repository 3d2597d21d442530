//! The line of a number under a name.

ghost use Rattle.text_stream.specs.Writing.{Writes};
ghost use Rattle.sched_lines.specs.Line.{number_line};

use crate::line::put_number;
use text_stream::{Sink, TextFault, put};

/// The line of a number under this name.
#[tactic(auto, unfolding(crate::specs::Line::number_line))]
pub fn put_named<W: Sink>(writer: &mut W, name: &[u8], number: u64) -> Result<(), TextFault>
    ensures { Writes W.contents W.has_failed writer.old writer.new
        (number_line name.now number) result }
{
    put(writer, name)?;
    put_number(writer, number)?;
    put(writer, b"\n")
}
