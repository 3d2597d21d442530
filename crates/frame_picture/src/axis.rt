//! The axes of a picture: the minislots of a frame, and the milliseconds that they take.

ghost use Rattle.std.specs.Prelude.{◌≡◌, ◌<◌, ◌≤◌};
ghost use Rattle.sched_calls.specs.declared.reply.TheConstants.{MAX_ENTRIES};
ghost use Rattle.frame_picture.specs.Axis.{tick_step, tick_text, ticks_text, axis_text, axes_text};
ghost use Rattle.text_stream.specs.Writing.{Puts};

use crate::layout::{Scale, axes_of, axis_top, rows_under};
use crate::text::put_labelled;
use crate::time::put_ms;
use text_stream::{Sink, TextBuffer, TextFault};

// How many minislots are from tick to tick, where a frame has so many: eleven ticks at most in one of 1024.
#[tactic(auto, unfolding(crate::specs::Axis::tick_step))]
fn tick_step(frame: u32) -> u32
    ensures value { result ≡ tick_step frame }
    ensures some { 0 < result }
    ensures most { result ≤ 100 }
{
    match frame {
        0..=20 => 2,
        21..=50 => 5,
        51..=100 => 10,
        101..=200 => 20,
        201..=500 => 50,
        _ => 100,
    }
}

// A tick down to a depth, the minislot that it stands for, and its milliseconds.
#[tactic(auto, unfolding(crate::specs::Axis::tick_text))]
fn put_tick<W: Sink>(
    lines: &mut TextBuffer,
    writer: &mut W,
    scale: Scale,
    depth: u64,
    slot: u32,
) -> Result<(), TextFault>
    requires narrow { scale.units ≤ 1024 }
    requires near { slot ≤ 1024 }
    ensures { Puts W.contents W.has_failed writer.old writer.new lines.old lines.new
        (tick_text scale depth slot) result }
{
    let x = u64::from(scale.units * slot);
    put_labelled(lines, writer, b"<path class='tick' d='M", x)?;
    put_labelled(lines, writer, b" 64V", depth)?;
    put_labelled(lines, writer, b"'/><text class='at' x='", x)?;
    put_labelled(lines, writer, b"' y='46'>", u64::from(slot))?;
    put_labelled(lines, writer, b"</text><text class='at' x='", x)?;
    lines.put(writer, b"' y='59'>")?;
    put_ms(lines, writer, scale.ticks, u64::from(slot))?;
    lines.put(writer, b"</text>\n")
}

// The ticks of a frame, down to a depth.
fn put_ticks<W: Sink>(
    lines: &mut TextBuffer,
    writer: &mut W,
    scale: Scale,
    depth: u64,
) -> Result<(), TextFault>
    requires narrow { scale.units ≤ 1024 }
    requires short { scale.frame ≤ 1024 }
    ensures { Puts W.contents W.has_failed writer.old writer.new lines.old lines.new
        (ticks_text scale depth) result }
{
    let step = tick_step(scale.frame);
    for i in 0..scale.frame / step + 1 {
        put_tick(lines, writer, scale, depth, step * i)?;
    }
    Ok(())
}

// The axis with this number over so many rows: the legend, and the ticks down to the last row under it.
#[tactic(auto, unfolding(crate::specs::Axis::axis_text))]
fn put_axis<W: Sink>(
    lines: &mut TextBuffer,
    writer: &mut W,
    scale: Scale,
    rows: u64,
    axis: u64,
) -> Result<(), TextFault>
    requires narrow { scale.units ≤ 1024 }
    requires short { scale.frame ≤ 1024 }
    requires near { axis ≤ MAX_ENTRIES }
    ensures { Puts W.contents W.has_failed writer.old writer.new lines.old lines.new
        (axis_text scale rows axis) result }
{
    let top = axis_top(axis);
    put_labelled(
        lines,
        writer,
        b"<g class='axis' transform='translate(176 ",
        top,
    )?;
    lines.put(writer, b")'><use href='#legend'/>\n")?;
    put_ticks(lines, writer, scale, 68 + 28 * rows_under(rows, axis))?;
    lines.put(writer, b"</g>\n")
}

// The axes over so many rows.
pub(crate) fn put_axes<W: Sink>(
    lines: &mut TextBuffer,
    writer: &mut W,
    scale: Scale,
    rows: u64,
) -> Result<(), TextFault>
    requires narrow { scale.units ≤ 1024 }
    requires short { scale.frame ≤ 1024 }
    requires few { rows ≤ MAX_ENTRIES }
    ensures { Puts W.contents W.has_failed writer.old writer.new lines.old lines.new
        (axes_text scale rows) result }
{
    for axis in 0..axes_of(rows) {
        put_axis(lines, writer, scale, rows, axis)?;
    }
    Ok(())
}
