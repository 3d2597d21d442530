//! The use of minislots, stacked, step by step.

ghost use Rattle.std.specs.Prelude.{◌≡◌, ◌<◌, ◌≤◌, ◌^◌, length};
ghost use Rattle.report_picture.specs.Areas.{look_of, slots_upto, edge_text, edges_text, area_text, areas_text};
ghost use Rattle.report_picture.specs.Areas.{open_area, open_told};
ghost use Rattle.report_picture.specs.Areas.{begin_place, end_place, stretch_text, slots_text, step_text, steps_text};
ghost use Rattle.text_stream.specs.Writing.{Puts};

use crate::axis::microseconds;
use crate::course::{Course, end_of, first_frame, frame_behind, height_of, time_place, time_since};
use crate::filled::put_filled;
use crate::over_time::Step;
use sched_report::{Slots, Use};
use text_stream::{Sink, TextBuffer, TextFault};

// The name of the look of a use.
#[tactic(auto, unfolding(crate::specs::Areas::look_of))]
fn look_of(kind: Use) -> &'static [u8]
    ensures { result.now ≡ look_of kind }
{
    match kind {
        Use::Request => b"request",
        Use::Poll => b"poll",
        Use::Unsolicited => b"unsolicited",
        Use::Opportunity => b"opportunity",
        Use::Data => b"data",
        Use::Open => b"open",
        Use::Idle => b"idle",
    }
}

// The minislots of a use and of those that stand below it: from the request region up to idle ones.
#[tactic(auto, unfolding(crate::specs::Areas::slots_upto))]
fn slots_upto(kind: Use, slots: Slots) -> u128
    ensures value { result ≡ slots_upto kind slots }
    ensures few { result < 2 ^ 100 }
{
    let request = u128::from(slots.request);
    let poll = request + u128::from(slots.poll);
    let unsolicited = poll + u128::from(slots.unsolicited);
    let opportunity = unsolicited + u128::from(slots.opportunity);
    let data = opportunity + u128::from(slots.data_grants);
    let open_idle = data + u128::from(slots.open_idle);
    match kind {
        Use::Request => request,
        Use::Poll => poll,
        Use::Unsolicited => unsolicited,
        Use::Opportunity => opportunity,
        Use::Data => data,
        Use::Open => open_idle,
        Use::Idle => open_idle + u128::from(slots.idle),
    }
}

// Where a step begins.
fn begin_place(course: Course, step: Step) -> u128
    ensures { result ≡ begin_place course step }
{
    time_place(course, u128::from(step.first))
}

// Where it ends.
fn end_place(course: Course, step: Step) -> u128
    ensures { result ≡ end_place course step }
{
    time_place(course, end_of(course, step.last))
}

// To where a step begins, up to the upper edge of a use in it, on to where the step ends, and down.
fn put_edge<W: Sink>(
    lines: &mut TextBuffer,
    writer: &mut W,
    course: Course,
    kind: Use,
    steps: &[Step],
    i: usize,
) -> Result<(), TextFault>
    requires inside { i < length steps.now }
    requires most { length steps.now ≤ 800 }
    requires narrow { course.width ≤ 2 ^ 45 }
    ensures { Puts W.contents W.has_failed writer.old writer.new lines.old lines.new
        (edge_text course kind steps.now i) result }
{
    let step = steps[i];
    let height = height_of(course, step, slots_upto(kind, step.slots));
    let numbers = [begin_place(course, step), height, end_place(course, step)];
    put_filled(lines, writer, b"H~V-~H~V0", &numbers)
}

// The upper edge of a use, step by step.
fn put_edges<W: Sink>(
    lines: &mut TextBuffer,
    writer: &mut W,
    course: Course,
    kind: Use,
    steps: &[Step],
) -> Result<(), TextFault>
    requires most { length steps.now ≤ 800 }
    requires narrow { course.width ≤ 2 ^ 45 }
    ensures { Puts W.contents W.has_failed writer.old writer.new lines.old lines.new
        (edges_text course kind steps.now) result }
{
    for i in 0..steps.len() {
        put_edge(lines, writer, course, kind, steps, i)?;
    }
    Ok(())
}

// What stands below the upper edge of a use.
#[tactic(auto, unfolding(crate::specs::Areas::area_text))]
fn put_area<W: Sink>(
    lines: &mut TextBuffer,
    writer: &mut W,
    course: Course,
    kind: Use,
    steps: &[Step],
) -> Result<(), TextFault>
    requires most { length steps.now ≤ 800 }
    requires narrow { course.width ≤ 2 ^ 45 }
    ensures { Puts W.contents W.has_failed writer.old writer.new lines.old lines.new
        (area_text course kind steps.now) result }
{
    lines.put(writer, b"<path class='area ")?;
    lines.put(writer, look_of(kind))?;
    lines.put(writer, b"' d='M0 0")?;
    put_edges(lines, writer, course, kind, steps)?;
    lines.put(writer, b"z'/>\n")
}

// Open idles, where idles are open.
fn put_open_area<W: Sink>(
    lines: &mut TextBuffer,
    writer: &mut W,
    course: Course,
    steps: &[Step],
) -> Result<(), TextFault>
    requires most { length steps.now ≤ 800 }
    requires narrow { course.width ≤ 2 ^ 45 }
    ensures { Puts W.contents W.has_failed writer.old writer.new lines.old lines.new
        (open_area course steps.now) result }
{
    if !course.opens {
        return Ok(());
    }
    put_area(lines, writer, course, Use::Open, steps)
}

// All uses: each one hides what stands below it of those above.
#[tactic(auto, unfolding(crate::specs::Areas::areas_text))]
pub(crate) fn put_areas<W: Sink>(
    lines: &mut TextBuffer,
    writer: &mut W,
    course: Course,
    steps: &[Step],
) -> Result<(), TextFault>
    requires most { length steps.now ≤ 800 }
    requires narrow { course.width ≤ 2 ^ 45 }
    ensures { Puts W.contents W.has_failed writer.old writer.new lines.old lines.new
        (areas_text course steps.now) result }
{
    put_area(lines, writer, course, Use::Idle, steps)?;
    put_open_area(lines, writer, course, steps)?;
    put_area(lines, writer, course, Use::Data, steps)?;
    put_area(lines, writer, course, Use::Opportunity, steps)?;
    put_area(lines, writer, course, Use::Unsolicited, steps)?;
    put_area(lines, writer, course, Use::Poll, steps)?;
    put_area(lines, writer, course, Use::Request, steps)
}

// What a step says of its frames.
#[tactic(auto, unfolding(crate::specs::Areas::step_text))]
fn put_step<W: Sink>(
    lines: &mut TextBuffer,
    writer: &mut W,
    course: Course,
    steps: &[Step],
    i: usize,
) -> Result<(), TextFault>
    requires inside { i < length steps.now }
    requires most { length steps.now ≤ 800 }
    requires narrow { course.width ≤ 2 ^ 45 }
    ensures { Puts W.contents W.has_failed writer.old writer.new lines.old lines.new
        (step_text course steps.now i) result }
{
    let step = steps[i];
    put_stretch(lines, writer, course, step, i)?;
    put_slots(lines, writer, course.opens, step.slots)
}

// From which frame to which a step reaches, and from when to when.
#[tactic(auto, unfolding(crate::specs::Areas::stretch_text))]
fn put_stretch<W: Sink>(
    lines: &mut TextBuffer,
    writer: &mut W,
    course: Course,
    step: Step,
    i: usize,
) -> Result<(), TextFault>
    requires near { i ≤ 800 }
    requires narrow { course.width ≤ 2 ^ 45 }
    ensures { Puts W.contents W.has_failed writer.old writer.new lines.old lines.new
        (stretch_text course step i) result }
{
    put_filled(
        lines,
        writer,
        b"<path class='step' d='M~ 0V-320H~V0z'><title>frames @ to @, ",
        &[
            begin_place(course, step),
            end_place(course, step),
            u128::from(first_frame(course, i)),
            u128::from(frame_behind(course, i).saturating_sub(1)),
        ],
    )?;
    put_filled(
        lines,
        writer,
        b"^ to ^ ms, minislots: ",
        &[
            microseconds(course.ticks, time_since(course, u128::from(step.first))),
            microseconds(course.ticks, time_since(course, end_of(course, step.last))),
        ],
    )
}

// How many minislots are open idles, where idles are open.
fn put_open_told<W: Sink>(
    lines: &mut TextBuffer,
    writer: &mut W,
    opens: bool,
    slots: u64,
) -> Result<(), TextFault>
    ensures { Puts W.contents W.has_failed writer.old writer.new lines.old lines.new
        (open_told opens slots) result }
{
    if !opens {
        return Ok(());
    }
    put_filled(lines, writer, b", open idle @", &[u128::from(slots)])
}

// What the minislots of a step are for.
#[tactic(auto, unfolding(crate::specs::Areas::slots_text))]
fn put_slots<W: Sink>(
    lines: &mut TextBuffer,
    writer: &mut W,
    opens: bool,
    slots: Slots,
) -> Result<(), TextFault>
    ensures { Puts W.contents W.has_failed writer.old writer.new lines.old lines.new
        (slots_text opens slots) result }
{
    let numbers = [
        u128::from(slots.request),
        u128::from(slots.poll),
        u128::from(slots.unsolicited),
        u128::from(slots.opportunity),
        u128::from(slots.data_grants),
    ];
    let template = b"request region @, polls @, unsolicited @, opportunities @, data grants @";
    put_filled(lines, writer, template, &numbers)?;
    put_open_told(lines, writer, opens, slots.open_idle)?;
    put_filled(
        lines,
        writer,
        b", idle @</title></path>\n",
        &[u128::from(slots.idle)],
    )
}

// What all steps say.
pub(crate) fn put_steps<W: Sink>(
    lines: &mut TextBuffer,
    writer: &mut W,
    course: Course,
    steps: &[Step],
) -> Result<(), TextFault>
    requires most { length steps.now ≤ 800 }
    requires narrow { course.width ≤ 2 ^ 45 }
    ensures { Puts W.contents W.has_failed writer.old writer.new lines.old lines.new
        (steps_text course steps.now) result }
{
    for i in 0..steps.len() {
        put_step(lines, writer, course, steps, i)?;
    }
    Ok(())
}
