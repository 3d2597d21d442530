//! How the delays of a rank are spread, and how that is drawn.

ghost use Rattle.std.specs.Prelude.{◌≡◌, ◌<◌, ◌^◌};
ghost use Rattle.report_picture.specs.Delays.{spread_with, marks_text, numbers_text, spread_text};
ghost use Rattle.text_stream.specs.Writing.{Puts};

use crate::axis::microseconds;
use crate::filled::put_filled;
use crate::scale::{Scale, delay_place};
use text_stream::{Sink, TextBuffer, TextFault};

// How the delays of a rank are spread, in minislots.
#[derive(Clone, Copy)]
pub(crate) struct Spread {
    pub(crate) least: u64,
    pub(crate) middle: u64,
    pub(crate) p99: u64,
    pub(crate) greatest: u64,
}

// These delays, where there are all four.
#[tactic(auto, unfolding(crate::specs::Delays::spread_with))]
pub(crate) fn spread_with(
    least: Option<u64>,
    middle: Option<u64>,
    p99: Option<u64>,
    greatest: Option<u64>,
) -> Option<Spread>
    ensures { result ≡ spread_with least middle p99 greatest }
{
    Some(Spread {
        least: least?,
        middle: middle?,
        p99: p99?,
        greatest: greatest?,
    })
}

// The marks of delays: from the least to the 99th, to the greatest, at the 99th and at the middle.
#[tactic(auto, unfolding(crate::specs::Delays::marks_text))]
fn put_marks<W: Sink>(
    lines: &mut TextBuffer,
    writer: &mut W,
    scale: Scale,
    spread: Spread,
) -> Result<(), TextFault>
    requires { scale.tenths < 2 ^ 96 }
    ensures { Puts W.contents W.has_failed writer.old writer.new lines.old lines.new
        (marks_text scale spread) result }
{
    let least = delay_place(scale, spread.least);
    let middle = delay_place(scale, spread.middle);
    let p99 = delay_place(scale, spread.p99);
    let greatest = delay_place(scale, spread.greatest);
    put_filled(
        lines,
        writer,
        b"<path class='range' d='M~ 9V23H~V9z'/><path class='most' d='M~ 16H~'/><path class='most' d='M~ 8v16'/>",
        &[least, p99, least, greatest, greatest],
    )?;
    put_filled(
        lines,
        writer,
        b"<path d='M~ 9l7 14h-14z'/><circle class='middle' cx='~' cy='16' r='5'/>\n",
        &[p99, middle],
    )
}

// Delays in milliseconds.
#[tactic(auto, unfolding(crate::specs::Delays::numbers_text))]
fn put_numbers<W: Sink>(
    lines: &mut TextBuffer,
    writer: &mut W,
    scale: Scale,
    spread: Spread,
) -> Result<(), TextFault>
    ensures { Puts W.contents W.has_failed writer.old writer.new lines.old lines.new
        (numbers_text scale spread) result }
{
    let least = microseconds(scale.ticks, u128::from(spread.least));
    let middle = microseconds(scale.ticks, u128::from(spread.middle));
    let p99 = microseconds(scale.ticks, u128::from(spread.p99));
    let greatest = microseconds(scale.ticks, u128::from(spread.greatest));
    put_filled(
        lines,
        writer,
        b"<text class='end' x='824' y='20'>^</text><text class='end' x='914' y='20'>^</text>",
        &[least, middle],
    )?;
    put_filled(
        lines,
        writer,
        b"<text class='end' x='1014' y='20'>^</text><text class='end' x='1104' y='20'>^</text>",
        &[p99, greatest],
    )
}

// The delays of a rank, where there are any.
#[tactic(auto, unfolding(crate::specs::Delays::spread_text))]
pub(crate) fn put_spread<W: Sink>(
    lines: &mut TextBuffer,
    writer: &mut W,
    scale: Scale,
    spread: Option<Spread>,
) -> Result<(), TextFault>
    requires { scale.tenths < 2 ^ 96 }
    ensures { Puts W.contents W.has_failed writer.old writer.new lines.old lines.new
        (spread_text scale spread) result }
{
    let Some(spread) = spread else {
        return Ok(());
    };
    put_marks(lines, writer, scale, spread)?;
    put_numbers(lines, writer, scale, spread)
}
