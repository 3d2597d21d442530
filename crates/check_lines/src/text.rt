//! What is written of a file that is read by lines.

ghost use Rattle.std.specs.Prelude.{◌≡◌, ◌++◌, flat_map, Option};
ghost use Rattle.text_stream.specs.Writing.{Writes};
ghost use Rattle.check_lines.specs.Text.{text_line, torn_text, good_text, legal_text, end_text};
ghost use Rattle.check_lines.specs.Text.{place_text, opening_text};
ghost use Rattle.check_lines.specs.Text.{bad_line_text, told_text, bad_text, more_text, talk_text};

use crate::document::put_fault;
use crate::live::{Conversation, MOST};
use crate::told_line::ToldLine;
use journal_entries::EntriesEnd;
use live_command::LineFault;
use sched_lines::{put_named, put_number};
use text_stream::{Sink, TextFault, put};

// A line of words.
#[tactic(auto, unfolding(crate::specs::Text::text_line))]
fn put_text_line<W: Sink>(writer: &mut W, words: &[u8]) -> Result<(), TextFault>
    ensures { Writes W.contents W.has_failed writer.old writer.new (text_line words.now) result }
{
    put(writer, words)?;
    put(writer, b"\n")
}

// How many bytes stand behind the last newline, where there are any.
#[tactic(auto, unfolding(crate::specs::Text::torn_text))]
fn put_torn<W: Sink>(writer: &mut W, torn: u64) -> Result<(), TextFault>
    ensures { Writes W.contents W.has_failed writer.old writer.new (torn_text torn) result }
{
    if torn == 0 {
        return Ok(());
    }
    put_named(
        writer,
        b"bytes behind the last newline, which count for nothing:",
        torn,
    )
}

// That a journal is legal.
#[tactic(auto, unfolding(crate::specs::Text::good_text))]
fn put_good<W: Sink>(writer: &mut W) -> Result<(), TextFault>
    ensures { Writes W.contents W.has_failed writer.old writer.new good_text result }
{
    put_text_line(writer, b"good journal")
}

// That a journal is legal, and what it has.
#[tactic(auto, unfolding(crate::specs::Text::legal_text))]
fn put_legal<W: Sink>(writer: &mut W, entries: u64, torn: u64) -> Result<(), TextFault>
    ensures { Writes W.contents W.has_failed writer.old writer.new
        (legal_text entries torn) result }
{
    put_good(writer)?;
    put_named(writer, b"entries:", entries)?;
    put_torn(writer, torn)
}

// What is said first of a journal that ends so, with so many entries where it is legal.
#[tactic(auto, unfolding(crate::specs::Text::end_text))]
fn put_end<W: Sink>(writer: &mut W, end: EntriesEnd, entries: u64) -> Result<(), TextFault>
    ensures { Writes W.contents W.has_failed writer.old writer.new (end_text end entries) result }
{
    match end {
        EntriesEnd::Legal(torn) => put_legal(writer, entries, torn),
        EntriesEnd::Illegal(place) => put_named(writer, b"illegal", place),
        EntriesEnd::Bad(line) => put_named(writer, b"bad journal at", line),
    }
}

// The line that is wrong, where there is one.
fn put_place<W: Sink>(writer: &mut W, place: Option<u64>) -> Result<(), TextFault>
    ensures { Writes W.contents W.has_failed writer.old writer.new (place_text place) result }
{
    match place {
        Some(number) => put_named(writer, b"in line", number),
        None => Ok(()),
    }
}

/// What is said of a journal that ends so, with so many entries where it is legal, and words behind it.
pub(crate) fn put_journal<W: Sink>(
    writer: &mut W,
    end: EntriesEnd,
    entries: u64,
    words: &[u8],
) -> Result<(), TextFault>
    ensures { Writes W.contents W.has_failed writer.old writer.new
        (end_text end entries ++ words.now) result }
{
    put_end(writer, end, entries)?;
    put(writer, words)
}

// What is said first of a conversation whose configuration has this fault, in this line.
#[tactic(auto, unfolding(crate::specs::Text::opening_text))]
fn put_opening<W: Sink>(
    writer: &mut W,
    fault: TextFault,
    place: Option<u64>,
) -> Result<(), TextFault>
    ensures { Writes W.contents W.has_failed writer.old writer.new
        (opening_text fault place) result }
{
    put_fault(writer, fault)?;
    put(writer, b"\n")?;
    put_place(writer, place)
}

/// What is said of a conversation whose configuration has this fault, in this line, and words behind it.
pub(crate) fn put_faulty<W: Sink>(
    writer: &mut W,
    fault: TextFault,
    place: Option<u64>,
    words: &[u8],
) -> Result<(), TextFault>
    ensures { Writes W.contents W.has_failed writer.old writer.new
        (opening_text fault place ++ words.now) result }
{
    put_opening(writer, fault, place)?;
    put(writer, words)
}

// What is said first of a bad line of this number.
#[tactic(auto, unfolding(crate::specs::Text::bad_line_text))]
fn put_bad_line<W: Sink>(writer: &mut W, number: u64, fault: LineFault) -> Result<(), TextFault>
    ensures { Writes W.contents W.has_failed writer.old writer.new
        (bad_line_text (record { number = number; fault = fault })) result }
{
    put(writer, b"line")?;
    put_number(writer, number)?;
    put(writer, b": ")?;
    put_text_line(writer, fault.words().as_bytes())
}

// A bad line that is told, and words behind it.
#[tactic(auto, unfolding(crate::specs::Text::told_text))]
fn put_told<W: Sink>(writer: &mut W, line: &ToldLine) -> Result<(), TextFault>
    ensures { Writes W.contents W.has_failed writer.old writer.new (told_text line.now) result }
{
    put_bad_line(writer, line.number, line.fault)?;
    put(writer, line.words.as_bytes())
}

// Bad lines that are told, one after the other.
fn put_each_told<W: Sink>(writer: &mut W, told: &[ToldLine]) -> Result<(), TextFault>
    ensures { Writes W.contents W.has_failed writer.old writer.new
        (flat_map told_text told.now) result }
{
    for line in told {
        put_told(writer, line)?;
    }
    Ok(())
}

// How many lines are bad.
fn put_bad<W: Sink>(writer: &mut W, bad: u64) -> Result<(), TextFault>
    ensures { Writes W.contents W.has_failed writer.old writer.new (bad_text bad) result }
{
    if bad == 0 {
        return put_text_line(writer, b"good live input");
    }
    put_named(writer, b"live input with bad lines:", bad)
}

// How many bad lines are not told.
fn put_more<W: Sink>(writer: &mut W, bad: u64) -> Result<(), TextFault>
    ensures { Writes W.contents W.has_failed writer.old writer.new (more_text bad) result }
{
    if bad <= MOST {
        return Ok(());
    }
    put_named(writer, b"bad lines that are not told:", bad - MOST)
}

/// What is said of the lines of a conversation.
#[tactic(auto, unfolding(crate::specs::Text::talk_text))]
pub(crate) fn put_talk<W: Sink>(writer: &mut W, talk: &Conversation) -> Result<(), TextFault>
    ensures { Writes W.contents W.has_failed writer.old writer.new (talk_text talk.now) result }
{
    put_bad(writer, talk.bad)?;
    put_named(writer, b"calls:", talk.calls)?;
    put_each_told(writer, &talk.told)?;
    put_more(writer, talk.bad)
}
