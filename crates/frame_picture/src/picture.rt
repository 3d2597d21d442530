//! The picture of a history's frames.

ghost use Rattle.std.specs.Prelude.{◌≡◌, ◌<◌, ◌≤◌, ◌++◌, [], List, length, get_or, false, IfSome};
ghost use Rattle.std.specs.List.{AllByRecursion};
ghost use Rattle.sched_calls.specs.declared.reply.TheConstants.{MAX_ENTRIES, MAX_WHOLE_HISTORY};
ghost use Rattle.sched_calls.specs.declared.reply.Entry.{Entry as Recorded};
ghost use Rattle.sched_calls.specs.declared.reply.Reply.{Reply as Answer};
ghost use Rattle.sched_calls.specs.Reply.{IsEncodable};
ghost use Rattle.map_build.specs.declared.met.Met.{Met as Meeting};
ghost use Rattle.sched_history.specs.History.{IsLegal};
ghost use Rattle.frame_picture.specs.Frames.{frames_of, frames_in};
ghost use Rattle.frame_picture.specs.Along.{IsAlong};
ghost use Rattle.frame_picture.specs.Layout.{scale_of};
ghost use Rattle.frame_picture.specs.Meeting.{TellsMet, IsMetByFront, met_lists, met_within};
ghost use Rattle.frame_picture.specs.Part.{IsPart, HasTaken};
ghost use Rattle.frame_picture.specs.Picture.{entry_text, rows_text, frames_text, picture_text, plan_text};
ghost use Rattle.text_stream.specs.Writing.{Puts, Writes};

use crate::along::{Along, along_none, count_map, go_along};
use crate::axis::put_axes;
use crate::head::put_head;
use crate::layout::{Scale, scale_of};
use crate::meeting::met_at_place;
use crate::part::Part;
use crate::row::put_row;
use crate::span::{Place, Span, place_in};
use minislots::Checked;
use sched_history::{Entry, Met, Reply};
use text_stream::{Sink, TextBuffer, TextFault};

// How many MAPs a history has.
fn count_maps(entries: &[Entry]) -> u64
    ensures value { result ≡ length (frames_of entries.now) }
    ensures most { result ≤ length entries.now }
{
    let mut maps = 0;
    for entry in entries {
        maps += count_map(entry);
    }
    maps
}

// The row of an entry's MAP, if it has one and has a place, where it meets these opportunities.
#[tactic(auto, unfolding(crate::specs::Picture::entry_text))]
fn put_entry<W: Sink>(
    lines: &mut TextBuffer,
    writer: &mut W,
    scale: Scale,
    place: Option<Place>,
    along: &Along,
    met: &[Met],
    entry: &Entry,
) -> Result<(), TextFault>
    requires few { IfSome place (λ p. p.row ≤ MAX_ENTRIES) }
    requires some { 0 < scale.frame }
    requires narrow { scale.units ≤ 1024 }
    requires whole { IsEncodable entry.now.reply }
    ensures { Puts W.contents W.has_failed writer.old writer.new lines.old lines.new
        (entry_text scale place along.now.next (λ sid. get_or along.now.flows sid false) met.now entry.now.reply)
        result }
{
    let Some(place) = place else {
        return Ok(());
    };
    match &entry.reply {
        Reply::Built(map) => put_row(lines, writer, scale, place, along, met, map),
        _ => Ok(()),
    }
}

// The rows of frames in the span that these entries build, each of which meets what was found, behind what the entries
// before them tell.
fn put_rows<W: Sink>(
    lines: &mut TextBuffer,
    writer: &mut W,
    scale: Scale,
    span: Span,
    along: &mut Along,
    found: &[Vec<Met>],
    entries: &[Entry],
) -> Result<(), TextFault>
    requires known { (before : List Recorded) × IsAlong scale along.old before }
    requires early { along.old.number ≤ span.from }
    requires near { along.old.number ≤ MAX_WHOLE_HISTORY }
    requires few { length entries.now ≤ MAX_ENTRIES }
    requires some { 0 < scale.frame }
    requires narrow { scale.units ≤ 1024 }
    requires whole { AllByRecursion (λ e. IsEncodable e.reply) entries.now }
    ensures { (met : List Recorded → Answer → List Meeting) (before : List Recorded)
        → IsAlong scale along.old before → TellsMet met before entries.now (met_lists found.now)
        → Puts W.contents W.has_failed writer.old writer.new lines.old lines.new
        (rows_text scale met span.from 0 (frames_in span (frames_of (before ++ entries.now)))) result }
{
    for i in 0..entries.len() {
        let place = place_in(span, along.number);
        let entry = &entries[i];
        let met = met_at_place(found, i);
        put_entry(lines, writer, scale, place, along, met, entry)?;
        go_along(along, scale, entry);
    }
    Ok(())
}

// All of the picture of a history of so many frames, whose entries with frames that are drawn are these, each of which
// meets what was found, behind what the entries before them tell.
#[tactic(auto, unfolding(crate::specs::Picture::frames_text))]
fn put_all<W: Sink>(
    lines: &mut TextBuffer,
    writer: &mut W,
    scale: Scale,
    span: Span,
    total: u64,
    along: &mut Along,
    found: &[Vec<Met>],
    entries: &[Entry],
) -> Result<(), TextFault>
    requires part { (met : List Recorded → Answer → List Meeting) × ((h : List Recorded)
        × IsPart scale met span along.old total (met_lists found.now) entries.now h) }
    requires near { total ≤ MAX_WHOLE_HISTORY }
    requires some { 0 < scale.frame }
    requires short { scale.frame ≤ 1024 }
    requires narrow { scale.units ≤ 1024 }
    requires few { length entries.now ≤ MAX_ENTRIES }
    requires whole { AllByRecursion (λ e. IsEncodable e.reply) entries.now }
    ensures { (met : List Recorded → Answer → List Meeting) (h : List Recorded)
        → IsPart scale met span along.old total (met_lists found.now) entries.now h
        → Puts W.contents W.has_failed writer.old writer.new lines.old lines.new
        (frames_text scale met (length (frames_of h)) span.from (frames_in span (frames_of h))) result }
{
    let rows = span.count.min(total.saturating_sub(span.from));
    put_head(lines, writer, scale, rows, total)?;
    put_axes(lines, writer, scale, rows)?;
    put_rows(lines, writer, scale, span, along, found, entries)?;
    lines.put(writer, b"</svg>\n")
}

/// Writes the picture of a history's frames, on this channel: an axis with the legend above each 40 rows, and a row for
/// each MAP in the span, in their order, with a bar for each of its allocations, and above it a mark where frames were
/// left out. What the entries meet is what [`met_by_entries`](crate::met_by_entries) tells of them. Takes no memory,
/// and only a failed write ends it. The history need not be legal.
pub fn put_picture<W: Sink>(
    writer: &mut W,
    config: &Checked,
    span: Span,
    found: &[Vec<Met>],
    entries: &[Entry],
) -> Result<(), TextFault>
    requires few { length entries.now ≤ MAX_ENTRIES }
    requires whole { AllByRecursion (λ e. IsEncodable e.reply) entries.now }
    requires met { IsMetByFront config.now entries.now (met_lists found.now) }

    // What was written is the picture, by the plan as far as the history is legal, and nothing else.
    ensures drawn { Writes W.contents W.has_failed writer.old writer.new
        (picture_text config.now (met_within config.now (length (met_lists found.now))) span entries.now)
        result }
    ensures legal { IsLegal config.now entries.now
        → Writes W.contents W.has_failed writer.old writer.new (plan_text config.now span entries.now) result }
{
    let mut lines = TextBuffer::new();
    let scale = scale_of(config);
    let total = count_maps(entries);
    let mut along = along_none(scale);
    put_all(
        &mut lines, writer, scale, span, total, &mut along, found, entries,
    )?;
    lines.write_out(writer)
}

/// Writes the picture of the frames that were taken, as [`put_picture`] does of a history.
pub fn put_part<W: Sink>(writer: &mut W, part: &mut Part) -> Result<(), TextFault>
    requires known { HasTaken part.old }

    // What was written is the picture of all entries that came, by the plan, and nothing else.
    ensures { Writes W.contents W.has_failed writer.old writer.new
        (plan_text part.old.config part.old.span part.old.auditor.history) result }
{
    let mut lines = TextBuffer::new();
    let scale = scale_of(&part.config);
    put_all(
        &mut lines,
        writer,
        scale,
        part.span,
        part.total,
        &mut part.along,
        &part.met,
        &part.kept,
    )?;
    lines.write_out(writer)
}
