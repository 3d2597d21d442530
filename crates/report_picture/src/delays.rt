//! The delays of requests by rank.

ghost use Rattle.std.specs.Prelude.{◌≡◌, ◌<◌, ◌≤◌, ◌^◌, length};
ghost use Rattle.report_picture.specs.Delays.{delay_tick, even_ticks, delay_ticks, title_end, delays_title};
ghost use Rattle.report_picture.specs.Delays.{marks_legend, delays_legend, last_columns, columns_text, delays_text};
ghost use Rattle.text_stream.specs.Writing.{Puts};

use crate::axis::{place, round_step};
use crate::decades::put_decade_ticks;
use crate::filled::put_filled;
use crate::rows::{put_no_rows, put_rows};
use crate::scale::{Scale, scale_of};
use sched_report::RankTold;
use text_stream::{Sink, TextBuffer, TextFault};

// The tick of so many tenths of a millisecond over so many rows.
#[tactic(auto, unfolding(crate::specs::Delays::delay_tick))]
fn put_delay_tick<W: Sink>(
    lines: &mut TextBuffer,
    writer: &mut W,
    scale: Scale,
    rows: usize,
    number: u128,
) -> Result<(), TextFault>
    requires small { scale.tenths < 2 ^ 96 }
    requires few { rows ≤ 9 }
    ensures { Puts W.contents W.has_failed writer.old writer.new lines.old lines.new
        (delay_tick scale rows number) result }
{
    if number > scale.tenths {
        return Ok(());
    }
    let x = place(6400, number, scale.tenths);
    put_filled(
        lines,
        writer,
        b"<path class='tick' d='M~-4V@'/><text class='at' x='~' y='-10'>~</text>\n",
        &[x, 32 * rows as u128, x, number],
    )
}

// The ticks of a linear axis.
fn put_even_ticks<W: Sink>(
    lines: &mut TextBuffer,
    writer: &mut W,
    scale: Scale,
    rows: usize,
) -> Result<(), TextFault>
    requires small { scale.tenths < 2 ^ 96 }
    requires few { rows ≤ 9 }
    ensures { Puts W.contents W.has_failed writer.old writer.new lines.old lines.new
        (even_ticks scale rows) result }
{
    let step = round_step(scale.tenths);
    for i in 0..11usize {
        put_delay_tick(lines, writer, scale, rows, step * i as u128)?;
    }
    Ok(())
}

// The ticks of delays.
fn put_delay_ticks<W: Sink>(
    lines: &mut TextBuffer,
    writer: &mut W,
    scale: Scale,
    rows: usize,
) -> Result<(), TextFault>
    requires small { scale.tenths < 2 ^ 96 }
    requires few { rows ≤ 9 }
    ensures { Puts W.contents W.has_failed writer.old writer.new lines.old lines.new
        (delay_ticks scale rows) result }
{
    match scale.start {
        None => put_even_ticks(lines, writer, scale, rows),
        Some(start) => put_decade_ticks(lines, writer, scale, start, rows),
    }
}

// The end of what the delays are: whether their axis is logarithmic.
#[tactic(auto, unfolding(crate::specs::Delays::title_end))]
fn title_end(start: Option<u64>) -> &'static [u8]
    ensures { result.now ≡ title_end start }
{
    match start {
        None => b"to the end of the data grant that served it.</text>\n",
        Some(_) =>
            b"to the end of the data grant that served it. The axis is logarithmic.</text>\n",
    }
}

// What the delays are.
#[tactic(auto, unfolding(crate::specs::Delays::delays_title))]
fn put_delays_title<W: Sink>(
    lines: &mut TextBuffer,
    writer: &mut W,
    start: Option<u64>,
) -> Result<(), TextFault>
    ensures { Puts W.contents W.has_failed writer.old writer.new lines.old lines.new
        (delays_title start) result }
{
    lines.put(
        writer,
        b"<text class='head' x='96' y='492'>Delays of requests by rank, in ms: from where a request was heard ",
    )?;
    lines.put(writer, title_end(start))
}

// What their marks are for.
#[tactic(auto, unfolding(crate::specs::Delays::marks_legend))]
fn put_marks_legend<W: Sink>(lines: &mut TextBuffer, writer: &mut W) -> Result<(), TextFault>
    ensures { Puts W.contents W.has_failed writer.old writer.new lines.old lines.new
        (marks_legend) result }
{
    lines.put(
        writer,
        b"<path class='range' d='M96 506h28v14h-28z'/><text x='132' y='517'>least to 99 in a hundred</text>",
    )?;
    lines.put(
        writer,
        b"<circle class='middle' cx='330' cy='513' r='5'/><text x='344' y='517'>middle: 50 in a hundred</text>",
    )?;
    lines.put(
        writer,
        b"<path d='M520 506l7 14h-14z'/><text x='536' y='517'>99 in a hundred</text>",
    )?;
    lines.put(writer, b"<path class='most' d='M670 513h20'/>")?;
    lines.put(
        writer,
        b"<path class='most' d='M690 505v16'/><text x='702' y='517'>greatest</text>\n",
    )
}

// What the delays are, and what their marks are for.
#[tactic(auto, unfolding(crate::specs::Delays::delays_legend))]
fn put_delays_legend<W: Sink>(
    lines: &mut TextBuffer,
    writer: &mut W,
    start: Option<u64>,
) -> Result<(), TextFault>
    ensures { Puts W.contents W.has_failed writer.old writer.new lines.old lines.new
        (delays_legend start) result }
{
    put_delays_title(lines, writer, start)?;
    put_marks_legend(lines, writer)
}

// The names of the columns behind those of delays.
#[tactic(auto, unfolding(crate::specs::Delays::last_columns))]
fn put_last_columns<W: Sink>(
    lines: &mut TextBuffer,
    writer: &mut W,
    replaced: bool,
) -> Result<(), TextFault>
    ensures { Puts W.contents W.has_failed writer.old writer.new lines.old lines.new
        (last_columns replaced) result }
{
    if !replaced {
        return lines.put(
            writer,
            b"<text class='end' x='1194' y='-10'>waiting</text><text class='end' x='1284' y='-10'>dropped</text>\n",
        );
    }
    lines.put(
        writer,
        b"<text class='end' x='1164' y='-10'>waiting</text><text class='end' x='1224' y='-10'>dropped</text>",
    )?;
    lines.put(
        writer,
        b"<text class='end' x='1284' y='-10'>replaced</text>\n",
    )
}

// The names of the columns of numbers.
#[tactic(auto, unfolding(crate::specs::Delays::columns_text))]
fn put_columns<W: Sink>(
    lines: &mut TextBuffer,
    writer: &mut W,
    replaced: bool,
) -> Result<(), TextFault>
    ensures { Puts W.contents W.has_failed writer.old writer.new lines.old lines.new
        (columns_text replaced) result }
{
    lines.put(
        writer,
        b"<g transform='translate(96 560)'>\n<text class='end' x='-24' y='-10'>ms</text>",
    )?;
    lines.put(
        writer,
        b"<text class='end' x='724' y='-10'>served</text><text class='end' x='824' y='-10'>least</text>",
    )?;
    lines.put(
        writer,
        b"<text class='end' x='914' y='-10'>middle</text><text class='end' x='1014' y='-10'>99 in 100</text>",
    )?;
    lines.put(
        writer,
        b"<text class='end' x='1104' y='-10'>greatest</text>",
    )?;
    put_last_columns(lines, writer, replaced)
}

// The delays of ranks, on a channel whose minislots have so many ticks.
#[tactic(auto, unfolding(crate::specs::Delays::delays_text))]
pub(crate) fn put_delays<W: Sink>(
    lines: &mut TextBuffer,
    writer: &mut W,
    ticks: u32,
    replaced: bool,
    ranks: &[RankTold],
) -> Result<(), TextFault>
    requires { length ranks.now ≤ 9 }
    ensures { Puts W.contents W.has_failed writer.old writer.new lines.old lines.new
        (delays_text ticks replaced ranks.now) result }
{
    let scale = scale_of(ticks, ranks);
    put_delays_legend(lines, writer, scale.start)?;
    put_columns(lines, writer, replaced)?;
    put_delay_ticks(lines, writer, scale, ranks.len())?;
    put_rows(lines, writer, scale, replaced, ranks)?;
    put_no_rows(lines, writer, ranks.len())?;
    lines.put(writer, b"</g>\n")
}
