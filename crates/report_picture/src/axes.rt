//! The axes of the use of minislots: time to the right, in milliseconds or from 10 seconds on in seconds, and minislots
//! of a frame upwards.

ghost use Rattle.std.specs.Prelude.{◌≡◌, ◌<◌, ◌≤◌, ◌^◌};
ghost use Rattle.report_picture.specs.Axes.{quarters, is_in_seconds, thousandth, axis_end};
ghost use Rattle.report_picture.specs.Axes.{time_mark, time_tick, time_ticks, unit_name, time_name};
ghost use Rattle.report_picture.specs.Axes.{slots_tick, slots_ticks, part_ticks, axes_names, axes_text};
ghost use Rattle.text_stream.specs.Writing.{Puts};

use crate::axis::{HEIGHT, WIDTH, place, round_step};
use crate::course::Course;
use crate::filled::put_filled;
use text_stream::{Sink, TextBuffer, TextFault};

// Ten seconds, in quarters of a microsecond.
const TEN_SECONDS: u128 = 40_000_000;

// The time from the start of the first frame to the end of the last one, in quarters of a microsecond.
fn quarters(course: Course) -> u128
    ensures value { result ≡ quarters course }
    ensures small { result < 2 ^ 101 }
{
    u128::from(course.span) * u128::from(course.ticks) * 25
}

// Whether the axis is in seconds.
fn is_in_seconds(course: Course) -> bool
    ensures { result ≡ is_in_seconds course }
{
    quarters(course) >= TEN_SECONDS
}

// So many quarters of a microsecond are a thousandth of the unit at the axis.
fn thousandth(course: Course) -> u128
    ensures value { result ≡ thousandth course }
    ensures some { 4 ≤ result }
    ensures small { result ≤ 4000 }
{
    if is_in_seconds(course) { 4000 } else { 4 }
}

// So many thousandths of the unit the axis has.
fn axis_end(course: Course) -> u128
    ensures value { result ≡ axis_end course }
    ensures small { result < 2 ^ 99 }
{
    quarters(course) / thousandth(course)
}

// The mark of so many thousandths of the unit.
#[tactic(auto, unfolding(crate::specs::Axes::time_mark))]
fn put_time_mark<W: Sink>(
    lines: &mut TextBuffer,
    writer: &mut W,
    course: Course,
    number: u128,
) -> Result<(), TextFault>
    requires { number < 2 ^ 99 }
    ensures { Puts W.contents W.has_failed writer.old writer.new lines.old lines.new
        (time_mark course number) result }
{
    let x = place(WIDTH, number * thousandth(course), quarters(course));
    put_filled(
        lines,
        writer,
        b"<path class='tick' d='M~ 6V-320'/><text class='at' x='~' y='20'>^</text>\n",
        &[x, x, number],
    )
}

// The tick of so many thousandths of the unit, where the axis has so many.
#[tactic(auto, unfolding(crate::specs::Axes::time_tick))]
fn put_time_tick<W: Sink>(
    lines: &mut TextBuffer,
    writer: &mut W,
    course: Course,
    number: u128,
) -> Result<(), TextFault>
    ensures { Puts W.contents W.has_failed writer.old writer.new lines.old lines.new
        (time_tick course number) result }
{
    if number > axis_end(course) {
        return Ok(());
    }
    put_time_mark(lines, writer, course, number)
}

// The ticks of time: from 0 on, ten steps at most.
fn put_time_ticks<W: Sink>(
    lines: &mut TextBuffer,
    writer: &mut W,
    course: Course,
) -> Result<(), TextFault>
    ensures { Puts W.contents W.has_failed writer.old writer.new lines.old lines.new
        (time_ticks course) result }
{
    let step = round_step(axis_end(course));
    for i in 0..11usize {
        put_time_tick(lines, writer, course, step * i as u128)?;
    }
    Ok(())
}

// The name of the unit at the axis.
#[tactic(auto, unfolding(crate::specs::Axes::unit_name))]
fn unit_name(course: Course) -> &'static [u8]
    ensures { result.now ≡ unit_name course }
{
    if is_in_seconds(course) {
        b"seconds"
    } else {
        b"milliseconds"
    }
}

// What the axis of time is in.
#[tactic(auto, unfolding(crate::specs::Axes::time_name))]
fn put_time_name<W: Sink>(
    lines: &mut TextBuffer,
    writer: &mut W,
    course: Course,
) -> Result<(), TextFault>
    ensures { Puts W.contents W.has_failed writer.old writer.new lines.old lines.new
        (time_name course) result }
{
    lines.put(
        writer,
        b"<text class='at' x='512' y='38'>time from the start of the first frame, in ",
    )?;
    lines.put(writer, unit_name(course))?;
    lines.put(writer, b"</text>\n")
}

// The tick of so many minislots of a frame.
#[tactic(auto, unfolding(crate::specs::Axes::slots_tick))]
fn put_slots_tick<W: Sink>(
    lines: &mut TextBuffer,
    writer: &mut W,
    course: Course,
    number: u128,
) -> Result<(), TextFault>
    ensures { Puts W.contents W.has_failed writer.old writer.new lines.old lines.new
        (slots_tick course number) result }
{
    let frame = u128::from(course.frame);
    if number > frame {
        return Ok(());
    }
    let y = place(HEIGHT, number, frame);
    put_filled(
        lines,
        writer,
        b"<path class='tick' d='M0-~h1024'/><text class='end' x='-8' y='-~' dy='4'>@</text>\n",
        &[y, y, number],
    )
}

// The ticks of minislots.
fn put_slots_ticks<W: Sink>(
    lines: &mut TextBuffer,
    writer: &mut W,
    course: Course,
) -> Result<(), TextFault>
    ensures { Puts W.contents W.has_failed writer.old writer.new lines.old lines.new
        (slots_ticks course) result }
{
    let step = round_step(u128::from(course.frame));
    for i in 0..11usize {
        put_slots_tick(lines, writer, course, step * i as u128)?;
    }
    Ok(())
}

// The ticks of parts of a frame.
#[tactic(auto, unfolding(crate::specs::Axes::part_ticks))]
fn put_part_ticks<W: Sink>(lines: &mut TextBuffer, writer: &mut W) -> Result<(), TextFault>
    ensures { Puts W.contents W.has_failed writer.old writer.new lines.old lines.new
        (part_ticks) result }
{
    lines.put(
        writer,
        b"<text class='part' x='1032' y='4'>0 %</text><text class='part' x='1032' y='-76'>25 %</text>",
    )?;
    lines.put(
        writer,
        b"<text class='part' x='1032' y='-156'>50 %</text><text class='part' x='1032' y='-236'>75 %</text>",
    )?;
    lines.put(
        writer,
        b"<text class='part' x='1032' y='-316'>100 %</text>\n",
    )
}

// What the axes are of, and the edge of what they are round.
#[tactic(auto, unfolding(crate::specs::Axes::axes_names))]
fn put_axes_names<W: Sink>(lines: &mut TextBuffer, writer: &mut W) -> Result<(), TextFault>
    ensures { Puts W.contents W.has_failed writer.old writer.new lines.old lines.new
        (axes_names) result }
{
    lines.put(
        writer,
        b"<path class='edge' d='M0-320V0H1024V-320z'/><text class='end' x='-8' y='-332'>minislots</text>",
    )?;
    lines.put(
        writer,
        b"<text class='part' x='1032' y='-332'>of a frame</text>\n",
    )
}

// The axes.
#[tactic(auto, unfolding(crate::specs::Axes::axes_text))]
pub(crate) fn put_axes<W: Sink>(
    lines: &mut TextBuffer,
    writer: &mut W,
    course: Course,
) -> Result<(), TextFault>
    ensures { Puts W.contents W.has_failed writer.old writer.new lines.old lines.new
        (axes_text course) result }
{
    put_slots_ticks(lines, writer, course)?;
    put_part_ticks(lines, writer)?;
    put_time_ticks(lines, writer, course)?;
    put_axes_names(lines, writer)?;
    put_time_name(lines, writer, course)
}
