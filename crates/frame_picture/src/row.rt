//! The row of a MAP, and its bars.

ghost use Rattle.std.specs.Prelude.{◌≡◌, ◌≤◌, ◌<◌, get_or, false};
ghost use Rattle.map_codec.specs.Element.{nulls};
ghost use Rattle.map_codec.specs.WireMap.{IsWellFormed};
ghost use Rattle.sched_calls.specs.declared.reply.TheConstants.{MAX_ENTRIES};
ghost use Rattle.frame_picture.specs.Bars.{shade_text, box_text, title_text, name_text, bar_text, bars_text};
ghost use Rattle.frame_picture.specs.Picture.{start_text, map_text};
ghost use Rattle.text_stream.specs.Writing.{Puts};

use crate::along::{Along, left_out};
use crate::bar::{Bar, bar_with};
use crate::flows::Flows;
use crate::layout::{Scale, row_top};
use crate::left::put_left;
use crate::shade::shade_of;
use crate::span::Place;
use crate::text::put_labelled;
use crate::time::put_ms;
use crate::usage::{is_named, look_of, name_width, origin_of, words_in};
use map_build::FrameMap;
use map_codec::Element;
use map_drawing::front_len;
use sched_history::{Met, meets_at};
use text_stream::{Sink, TextBuffer, TextFault};

// The name of a bar's shade.
#[tactic(auto, unfolding(crate::specs::Bars::shade_text))]
fn put_shade<W: Sink>(lines: &mut TextBuffer, writer: &mut W, bar: Bar) -> Result<(), TextFault>
    ensures { Puts W.contents W.has_failed writer.old writer.new lines.old lines.new
        (shade_text bar) result }
{
    if !is_named(bar.usage) {
        return Ok(());
    }
    let shade = shade_of(bar.allocation.sid);
    put_labelled(lines, writer, b" s", u64::from(shade))
}

// The box of a bar.
#[tactic(auto, unfolding(crate::specs::Bars::box_text))]
fn put_box<W: Sink>(lines: &mut TextBuffer, writer: &mut W, bar: Bar) -> Result<(), TextFault>
    ensures { Puts W.contents W.has_failed writer.old writer.new lines.old lines.new
        (box_text bar) result }
{
    lines.put(writer, b"<rect class='")?;
    lines.put(writer, look_of(bar))?;
    put_shade(lines, writer, bar)?;
    put_labelled(lines, writer, b"' x='", u64::from(bar.x))?;
    put_labelled(lines, writer, b"' width='", u64::from(bar.width))?;
    lines.put(writer, b"' height='20'>")
}

// What a bar says of its allocation.
#[tactic(auto, unfolding(crate::specs::Bars::title_text))]
fn put_title<W: Sink>(lines: &mut TextBuffer, writer: &mut W, bar: Bar) -> Result<(), TextFault>
    ensures { Puts W.contents W.has_failed writer.old writer.new lines.old lines.new
        (title_text bar) result }
{
    let allocation = bar.allocation;
    put_labelled(lines, writer, b"<title>SID ", u64::from(allocation.sid))?;
    lines.put(writer, b", ")?;
    lines.put(writer, origin_of(bar))?;
    lines.put(writer, words_in(bar))?;
    put_labelled(lines, writer, b", offset ", u64::from(allocation.offset))?;
    put_labelled(lines, writer, b", length ", u64::from(allocation.length))?;
    put_labelled(lines, writer, b", bytes requested ", u64::from(bar.bytes))?;
    lines.put(writer, b"</title></rect>\n")
}

// The SID on a bar that is wide enough.
#[tactic(auto, unfolding(crate::specs::Bars::name_text))]
fn put_name<W: Sink>(lines: &mut TextBuffer, writer: &mut W, bar: Bar) -> Result<(), TextFault>
    ensures { Puts W.contents W.has_failed writer.old writer.new lines.old lines.new
        (name_text bar) result }
{
    let sid = bar.allocation.sid;
    if !is_named(bar.usage) || name_width(sid) > bar.width {
        return Ok(());
    }
    put_labelled(
        lines,
        writer,
        b"<text class='sid' x='",
        u64::from(bar.x) + 4,
    )?;
    put_labelled(lines, writer, b"' y='15'>", u64::from(sid))?;
    lines.put(writer, b"</text>\n")
}

// A bar.
#[tactic(auto, unfolding(crate::specs::Bars::bar_text))]
fn put_bar<W: Sink>(lines: &mut TextBuffer, writer: &mut W, bar: Bar) -> Result<(), TextFault>
    ensures { Puts W.contents W.has_failed writer.old writer.new lines.old lines.new
        (bar_text bar) result }
{
    put_box(lines, writer, bar)?;
    put_title(lines, writer, bar)?;
    put_name(lines, writer, bar)
}

// The bars of a MAP with these elements and byte counts, where these flows are unsolicited and these opportunities are
// met.
fn put_bars<W: Sink>(
    lines: &mut TextBuffer,
    writer: &mut W,
    units: u32,
    flows: &Flows,
    met: &[Met],
    elements: &[Element],
    bytes: &[u32],
) -> Result<(), TextFault>
    requires one { nulls elements.now ≡ 1 }
    requires narrow { units ≤ 1024 }
    ensures { Puts W.contents W.has_failed writer.old writer.new lines.old lines.new
        (bars_text units (λ sid. get_or flows.now sid false) met.now elements.now bytes.now) result }
{
    for i in 0..front_len(elements) {
        let unsolicited = flows[usize::from(elements[i].sid)];
        let is_met = meets_at(met, elements[i].offset);
        let bar = bar_with(units, elements, bytes, i, unsolicited, is_met);
        put_bar(lines, writer, bar)?;
    }
    Ok(())
}

// What stands before the bars of a row: the number of its frame, and the minislot and the millisecond at which it
// starts.
#[tactic(auto, unfolding(crate::specs::Picture::start_text))]
fn put_start<W: Sink>(
    lines: &mut TextBuffer,
    writer: &mut W,
    ticks: u32,
    place: Place,
    start: u64,
) -> Result<(), TextFault>
    requires few { place.row ≤ MAX_ENTRIES }
    ensures { Puts W.contents W.has_failed writer.old writer.new lines.old lines.new
        (start_text ticks place start) result }
{
    let top = row_top(place.row);
    put_labelled(lines, writer, b"<g transform='translate(176 ", top)?;
    let label = b")'>\n<text class='start' x='-128' y='15'>";
    put_labelled(lines, writer, label, place.number)?;
    let label = b"</text><text class='start' x='-8' y='9'>";
    put_labelled(lines, writer, label, start)?;
    lines.put(writer, b"</text><text class='start' x='-8' y='21'>")?;
    put_ms(lines, writer, ticks, start)?;
    lines.put(writer, b" ms</text>\n")
}

// The row of a MAP that meets these opportunities, behind what the entries before it tell.
#[tactic(auto, unfolding(crate::specs::Picture::map_text))]
pub(crate) fn put_row<W: Sink>(
    lines: &mut TextBuffer,
    writer: &mut W,
    scale: Scale,
    place: Place,
    along: &Along,
    met: &[Met],
    map: &FrameMap,
) -> Result<(), TextFault>
    requires few { place.row ≤ MAX_ENTRIES }
    requires narrow { scale.units ≤ 1024 }
    requires some { 0 < scale.frame }
    requires whole { IsWellFormed map.now.wire }
    ensures { Puts W.contents W.has_failed writer.old writer.new lines.old lines.new
        (map_text scale place along.now.next (λ sid. get_or along.now.flows sid false) met.now map.now)
        result }
{
    put_start(lines, writer, scale.ticks, place, map.start)?;
    put_left(lines, writer, left_out(scale, along.next, map.start))?;
    let elements = map.wire.elements.as_slice();
    let bytes = map.bytes.as_slice();
    put_bars(
        lines,
        writer,
        scale.units,
        &along.flows,
        met,
        elements,
        bytes,
    )?;
    lines.put(writer, b"</g>\n")
}
