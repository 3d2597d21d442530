//! The ticks of a logarithmic axis of delays.

ghost use Rattle.std.specs.Prelude.{◌≡◌, ◌<◌, ◌≤◌, ◌^◌};
ghost use Rattle.report_picture.specs.Decades.{round_at, tick_stride, is_ticked, decade_mark};
ghost use Rattle.report_picture.specs.Decades.{decade_tick, decade_ticks};
ghost use Rattle.text_stream.specs.Writing.{Puts};

use crate::axis::ROUND;
use crate::filled::put_filled;
use crate::levels::level_place;
use crate::scale::{Scale, quarters, scale_end};
use text_stream::{Sink, TextBuffer, TextFault};

// A round number of microseconds.
fn round_at(i: usize) -> u64
    requires { i < 58 }
    ensures { result ≡ round_at i }
{
    ROUND[i]
}

// From how many round numbers on the next tick stands.
fn tick_stride(start: u128, full: u128) -> usize
    requires { start < 2 ^ 108 }
    ensures value { result ≡ tick_stride start full }
    ensures some { 0 < result }
{
    if full <= 10_000 * start { 1 } else { 3 }
}

// Whether a tick stands at a round number.
fn is_ticked(start: u128, full: u128, i: usize) -> bool
    requires inside { i < 58 }
    requires small { start < 2 ^ 108 }
    ensures { result ≡ is_ticked start full i }
{
    let at = 4 * u128::from(round_at(i));
    if at < start {
        return false;
    }
    if full < at {
        return false;
    }
    i % tick_stride(start, full) == 0
}

// A tick of so many microseconds at a place over so many rows.
#[tactic(auto, unfolding(crate::specs::Decades::decade_mark))]
fn put_decade_mark<W: Sink>(
    lines: &mut TextBuffer,
    writer: &mut W,
    x: u128,
    rows: usize,
    micros: u64,
) -> Result<(), TextFault>
    requires { rows ≤ 9 }
    ensures { Puts W.contents W.has_failed writer.old writer.new lines.old lines.new
        (decade_mark x rows micros) result }
{
    let depth = 32 * rows as u128;
    if micros < 1000 {
        return put_filled(
            lines,
            writer,
            b"<path class='tick' d='M~-4V@'/><text class='at' x='~' y='-10'>^</text>\n",
            &[x, depth, x, u128::from(micros)],
        );
    }
    put_filled(
        lines,
        writer,
        b"<path class='tick' d='M~-4V@'/><text class='at' x='~' y='-10'>@</text>\n",
        &[x, depth, x, u128::from(micros / 1000)],
    )
}

// The tick of a round number, where one stands there.
#[tactic(auto, unfolding(crate::specs::Decades::decade_tick))]
fn put_decade_tick<W: Sink>(
    lines: &mut TextBuffer,
    writer: &mut W,
    scale: Scale,
    start: u64,
    rows: usize,
    i: usize,
) -> Result<(), TextFault>
    requires small { scale.tenths < 2 ^ 96 }
    requires few { rows ≤ 9 }
    requires inside { i < 58 }
    ensures { Puts W.contents W.has_failed writer.old writer.new lines.old lines.new
        (decade_tick scale start rows i) result }
{
    let least = quarters(scale.ticks, start);
    let most = scale_end(scale);
    if !is_ticked(least, most, i) {
        return Ok(());
    }
    let micros = round_at(i);
    let x = level_place(6400, 4 * u128::from(micros), least, most);
    put_decade_mark(lines, writer, x, rows, micros)
}

// The ticks of an axis that begins at a delay.
pub(crate) fn put_decade_ticks<W: Sink>(
    lines: &mut TextBuffer,
    writer: &mut W,
    scale: Scale,
    start: u64,
    rows: usize,
) -> Result<(), TextFault>
    requires small { scale.tenths < 2 ^ 96 }
    requires few { rows ≤ 9 }
    ensures { Puts W.contents W.has_failed writer.old writer.new lines.old lines.new
        (decade_ticks scale start rows) result }
{
    for i in 0..58usize {
        put_decade_tick(lines, writer, scale, start, rows, i)?;
    }
    Ok(())
}
