//! The picture of a report.

ghost use Rattle.std.specs.Prelude.{◌≡◌, ◌≤◌, ◌<◌, ◌^◌, List, ℕ, length};
ghost use Rattle.report_picture.specs.Picture.{no_frames_text, use_text, report_text, course_of, IsReportPicture};
ghost use Rattle.report_picture.specs.Kept.{IsOverTime};
ghost use Rattle.minislots.specs.declared.config.Config.{Config};
ghost use Rattle.frame_picture.specs.Frames.{Frame};
ghost use Rattle.text_stream.specs.Writing.{Puts, Writes};

use crate::areas::{put_areas, put_steps};
use crate::axes::put_axes;
use crate::course::Course;
use crate::delays::put_delays;
use crate::head::put_head;
use crate::over_time::{Step, UseOverTime};
use crate::ranks::ranks_told;
use crate::timed::TimedReporter;
use minislots::Checked;
use sched_report::{RankTold, Totals};
use text_stream::{Sink, TextBuffer, TextFault};

// What stands in the place of steps where there are none.
#[tactic(auto, unfolding(crate::specs::Picture::no_frames_text))]
fn put_no_frames<W: Sink>(
    lines: &mut TextBuffer,
    writer: &mut W,
    steps: usize,
) -> Result<(), TextFault>
    ensures { Puts W.contents W.has_failed writer.old writer.new lines.old lines.new
        (no_frames_text steps) result }
{
    if steps == 0 {
        return lines.put(
            writer,
            b"<text class='head' x='24' y='-135'>No MAP was built, so there is no frame.</text>\n",
        );
    }
    Ok(())
}

// The use of minislots over time, with its axes.
#[tactic(auto, unfolding(crate::specs::Picture::use_text))]
fn put_use<W: Sink>(
    lines: &mut TextBuffer,
    writer: &mut W,
    course: Course,
    steps: &[Step],
) -> Result<(), TextFault>
    requires most { length steps.now ≤ 800 }
    requires narrow { course.width ≤ 2 ^ 45 }
    ensures { Puts W.contents W.has_failed writer.old writer.new lines.old lines.new
        (use_text course steps.now) result }
{
    lines.put(writer, b"<g transform='translate(96 420)'>\n")?;
    put_areas(lines, writer, course, steps)?;
    put_axes(lines, writer, course)?;
    put_steps(lines, writer, course, steps)?;
    put_no_frames(lines, writer, steps.len())?;
    lines.put(writer, b"</g>\n")
}

// The picture of these numbers.
#[tactic(auto, unfolding(crate::specs::Picture::report_text))]
fn put_report<W: Sink>(
    lines: &mut TextBuffer,
    writer: &mut W,
    course: Course,
    totals: &Totals,
    steps: &[Step],
    ranks: &[RankTold],
) -> Result<(), TextFault>
    requires most { length steps.now ≤ 800 }
    requires narrow { course.width ≤ 2 ^ 45 }
    requires few { length ranks.now ≤ 9 }
    ensures { Puts W.contents W.has_failed writer.old writer.new lines.old lines.new
        (report_text course totals.now steps.now ranks.now) result }
{
    put_head(lines, writer, course, totals, ranks.len())?;
    put_use(lines, writer, course, steps)?;
    put_delays(lines, writer, course.ticks, totals.replaces > 0, ranks)?;
    lines.put(writer, b"</svg>\n")
}

// The picture of these numbers, to its end.
fn write_report<W: Sink>(
    writer: &mut W,
    course: Course,
    totals: &Totals,
    steps: &[Step],
    ranks: &[RankTold],
) -> Result<(), TextFault>
    requires most { length steps.now ≤ 800 }
    requires narrow { course.width ≤ 2 ^ 45 }
    requires few { length ranks.now ≤ 9 }
    ensures { Writes W.contents W.has_failed writer.old writer.new
        (report_text course totals.now steps.now ranks.now) result }
{
    let mut lines = TextBuffer::new();
    put_report(&mut lines, writer, course, totals, steps, ranks)?;
    lines.write_out(writer)
}

// The course of the frames that were taken, whose numbers these are, under this configuration.
fn course_of(config: &Checked, totals: &Totals, over_time: &UseOverTime) -> Course
    requires { (c : Config) × (fs : List Frame) × IsOverTime c over_time.now fs
        × (length fs ≤ 2 ^ 44) }
    ensures value { result ≡
        course_of config.now totals.now over_time.now.frames over_time.now.width }
    ensures narrow { result.width ≤ 2 ^ 45 }
{
    let from = totals.from.unwrap_or(0);
    Course {
        frame: config.frame(),
        ticks: config.ticks(),
        frames: over_time.frames,
        width: over_time.width,
        from,
        span: totals.to.unwrap_or(0).saturating_sub(from),
        opens: totals.opens,
    }
}

/// Writes the picture of the report on the entries that were taken, under the configuration of the reporter: the use of
/// minislots over time, stacked, in at most 800 steps, and the delays of each rank that asked. Takes no memory, and
/// only a failed write ends it.
pub fn put_report_picture<W: Sink>(
    writer: &mut W,
    config: &Checked,
    timed: &TimedReporter,
) -> Result<(), TextFault>
    requires same { config.now ≡ timed.now.config }

    // What was written is the picture, and nothing else.
    ensures { (text : List ℕ) × IsReportPicture timed.now text
        × Writes W.contents W.has_failed writer.old writer.new text result }
{
    let over_time = timed.over_time();
    let totals = timed.reporter().totals();
    let course = course_of(config, &totals, over_time);
    let steps = over_time.all_steps();
    let ranks = ranks_told(timed.reporter());
    write_report(writer, course, &totals, steps.as_slice(), ranks.as_slice())
}
