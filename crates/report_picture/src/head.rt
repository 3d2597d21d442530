//! The head of a picture: how its parts look, its title, and what each look is for.

ghost use Rattle.std.specs.Prelude.{◌≡◌, ◌≤◌, ◌<◌, ◌^◌};
ghost use Rattle.report_picture.specs.Head.{size_text, style_text, request_patterns, other_patterns, span_text};
ghost use Rattle.report_picture.specs.Head.{line_style, area_style, frames_told, step_told, title_text, head_text};
ghost use Rattle.text_stream.specs.Writing.{Puts};

use crate::axis::microseconds;
use crate::course::Course;
use crate::filled::put_filled;
use crate::legend::{put_first_keys, put_last_keys, put_open_key};
use sched_report::Totals;
use text_stream::{Sink, TextBuffer, TextFault};

// How large a picture is in which so many ranks have delays.
#[tactic(auto, unfolding(crate::specs::Head::size_text))]
fn put_size<W: Sink>(lines: &mut TextBuffer, writer: &mut W, ranks: usize) -> Result<(), TextFault>
    requires { ranks ≤ 9 }
    ensures { Puts W.contents W.has_failed writer.old writer.new lines.old lines.new
        (size_text ranks) result }
{
    let depth = 584 + 32 * ranks.max(1) as u128;
    let template =
        b"<svg xmlns='http://www.w3.org/2000/svg' width='1400' height='@' viewBox='0 0 1400 @";
    put_filled(lines, writer, template, &[depth, depth])
}

// How its texts and lines look.
#[tactic(auto, unfolding(crate::specs::Head::line_style))]
fn put_line_style<W: Sink>(lines: &mut TextBuffer, writer: &mut W) -> Result<(), TextFault>
    ensures { Puts W.contents W.has_failed writer.old writer.new lines.old lines.new
        (line_style) result }
{
    lines.put(
        writer,
        b"' font-family='sans-serif' font-size='12'>\n<rect width='100%' height='100%' fill='#fff'/><style>",
    )?;
    lines.put(
        writer,
        b".head{font-size:14px}.at,.end,.part{font-size:11px}.at{text-anchor:middle}.end{text-anchor:end}\n",
    )?;
    lines.put(
        writer,
        b".key{stroke:#333;stroke-width:.5px}.tick{stroke:#000;stroke-opacity:.2}.edge{stroke:#333;fill:none}\n",
    )
}

// How its areas and marks look.
#[tactic(auto, unfolding(crate::specs::Head::area_style))]
fn put_area_style<W: Sink>(lines: &mut TextBuffer, writer: &mut W) -> Result<(), TextFault>
    ensures { Puts W.contents W.has_failed writer.old writer.new lines.old lines.new
        (area_style) result }
{
    lines.put(
        writer,
        b".step{fill-opacity:0}.request{fill:url(#request)}.poll{fill:url(#poll)}.unsolicited{fill:url(#unsolicited)}",
    )?;
    lines.put(
        writer,
        b".opportunity{fill:url(#opportunity)}.data{fill:#2f7fc1}.idle{fill:#ddd}.range{fill:#ccc}\n",
    )?;
    lines.put(
        writer,
        b".most{stroke:#333;stroke-width:2px}.middle{fill:#fff;stroke:#000;stroke-width:2px}</style>\n",
    )
}

// How its parts look.
#[tactic(auto, unfolding(crate::specs::Head::style_text))]
fn put_style<W: Sink>(lines: &mut TextBuffer, writer: &mut W) -> Result<(), TextFault>
    ensures { Puts W.contents W.has_failed writer.old writer.new lines.old lines.new
        (style_text) result }
{
    put_line_style(lines, writer)?;
    put_area_style(lines, writer)
}

// The patterns of minislots in which modems may ask.
#[tactic(auto, unfolding(crate::specs::Head::request_patterns))]
fn put_request_patterns<W: Sink>(lines: &mut TextBuffer, writer: &mut W) -> Result<(), TextFault>
    ensures { Puts W.contents W.has_failed writer.old writer.new lines.old lines.new
        (request_patterns) result }
{
    lines.put(
        writer,
        b"<defs><pattern id='request' width='6' height='6' patternUnits='userSpaceOnUse'>",
    )?;
    lines.put(
        writer,
        b"<path fill='#eee' d='M0 0h6v6H0z'/><path fill='#555' d='M2 2h2v2H2z'/></pattern>\n",
    )?;
    lines.put(
        writer,
        b"<pattern id='poll' width='8' height='8' patternUnits='userSpaceOnUse' patternTransform='rotate(45)'>",
    )?;
    lines.put(
        writer,
        b"<path fill='#ffd79a' d='M0 0h8v8H0z'/><path fill='#b85f00' d='M0 0h4v8H0z'/></pattern>\n",
    )
}

// The patterns of unsolicited grants and of opportunities.
#[tactic(auto, unfolding(crate::specs::Head::other_patterns))]
fn put_other_patterns<W: Sink>(lines: &mut TextBuffer, writer: &mut W) -> Result<(), TextFault>
    ensures { Puts W.contents W.has_failed writer.old writer.new lines.old lines.new
        (other_patterns) result }
{
    lines.put(
        writer,
        b"<pattern id='unsolicited' width='8' height='8' patternUnits='userSpaceOnUse'>",
    )?;
    lines.put(
        writer,
        b"<path fill='#eaa9cd' d='M0 0h8v8H0z'/><path stroke='#80154f' d='M0 0l8 8M8 0l-8 8'/></pattern>\n",
    )?;
    lines.put(
        writer,
        b"<pattern id='opportunity' width='6' height='6' patternUnits='userSpaceOnUse'>",
    )?;
    lines.put(
        writer,
        b"<path fill='#ddd' d='M0 0h6v6H0z'/><path fill='#555' d='M0 0h2v6H0z'/></pattern>\n</defs>\n",
    )
}

// From where to where the frames reach, where there are any.
#[tactic(auto, unfolding(crate::specs::Head::span_text))]
fn put_span<W: Sink>(
    lines: &mut TextBuffer,
    writer: &mut W,
    ticks: u32,
    from: Option<u64>,
    to: Option<u64>,
) -> Result<(), TextFault>
    ensures { Puts W.contents W.has_failed writer.old writer.new lines.old lines.new
        (span_text ticks from to) result }
{
    let (Some(from), Some(to)) = (from, to) else {
        return Ok(());
    };
    let time = microseconds(ticks, u128::from(to.saturating_sub(from)));
    let numbers = [u128::from(from), u128::from(to), time];
    put_filled(lines, writer, b" Minislots @ to @, ^ ms.", &numbers)
}

// How many frames there are, how long they are, from where to where they reach, and how often frames were left out.
#[tactic(auto, unfolding(crate::specs::Head::frames_told))]
fn put_frames_told<W: Sink>(
    lines: &mut TextBuffer,
    writer: &mut W,
    course: Course,
    totals: &Totals,
) -> Result<(), TextFault>
    ensures { Puts W.contents W.has_failed writer.old writer.new lines.old lines.new
        (frames_told course totals.now) result }
{
    let frame = u128::from(course.frame);
    let time = microseconds(course.ticks, frame);
    put_filled(
        lines,
        writer,
        b"<text class='head' x='96' y='26'>Use of minislots over time. Frames: @, of @ minislots, ^ ms each.",
        &[u128::from(course.frames), frame, time],
    )?;
    put_span(lines, writer, course.ticks, totals.from, totals.to)?;
    put_filled(
        lines,
        writer,
        b" Skips: @.</text>\n",
        &[u128::from(totals.skips)],
    )
}

// What a step is.
#[tactic(auto, unfolding(crate::specs::Head::step_told))]
fn put_step_told<W: Sink>(
    lines: &mut TextBuffer,
    writer: &mut W,
    course: Course,
) -> Result<(), TextFault>
    ensures { Puts W.contents W.has_failed writer.old writer.new lines.old lines.new
        (step_told course) result }
{
    put_filled(
        lines,
        writer,
        b"<text x='96' y='47'>Frames in a step: @. It reaches from the start of its first to the end of its last one, ",
        &[u128::from(course.width)],
    )?;
    lines.put(
        writer,
        b"a use as high as its part of that time. White: no frame, since no MAP was built.</text>\n",
    )
}

// The title: how many frames there are, how long they are, from where to where they reach, and what a step is.
#[tactic(auto, unfolding(crate::specs::Head::title_text))]
fn put_title<W: Sink>(
    lines: &mut TextBuffer,
    writer: &mut W,
    course: Course,
    totals: &Totals,
) -> Result<(), TextFault>
    ensures { Puts W.contents W.has_failed writer.old writer.new lines.old lines.new
        (title_text course totals.now) result }
{
    put_frames_told(lines, writer, course, totals)?;
    put_step_told(lines, writer, course)
}

// The head of a picture in which so many ranks have delays.
#[tactic(auto, unfolding(crate::specs::Head::head_text))]
pub(crate) fn put_head<W: Sink>(
    lines: &mut TextBuffer,
    writer: &mut W,
    course: Course,
    totals: &Totals,
    ranks: usize,
) -> Result<(), TextFault>
    requires { ranks ≤ 9 }
    ensures { Puts W.contents W.has_failed writer.old writer.new lines.old lines.new
        (head_text course totals.now ranks) result }
{
    put_size(lines, writer, ranks)?;
    put_style(lines, writer)?;
    put_request_patterns(lines, writer)?;
    put_other_patterns(lines, writer)?;
    put_title(lines, writer, course, totals)?;
    put_first_keys(lines, writer, &totals.slots)?;
    put_last_keys(lines, writer, &totals.slots)?;
    put_open_key(lines, writer, totals)
}
