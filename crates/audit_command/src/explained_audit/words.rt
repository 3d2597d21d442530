//! Words on an entry that is not lawful: its call, its reply and a lawful one, line beside line.

ghost use Rattle.sched_calls.specs.Reply.{IsEncodable};

use decode_command::put_table;
use map_build::{FrameMap, Header, Usage};
use sched_calls::Amount;
use sched_history::{Call, Entry, Reply, Unrecorded};
use sched_lines::LineBuffer;
use std::alloc::{AllocError, Global};
use std::fmt::Write;

// The lines of a reply: those of a MAP before its elements and from them on, or one line.
#[derive(Drop)]
struct Shown {
    head: String,
    rows: String,
}

// A bandwidth request of this name.
fn tell_request(
    words: &mut String,
    name: &str,
    receiver: u8,
    sid: u16,
    amount: Amount,
    heard: u64,
) -> Result<(), AllocError> {
    let (number, unit) = match amount {
        Amount::Bytes(bytes) => (bytes, "bytes"),
        Amount::Slots(slots) => (slots, "minislots"),
    };
    writeln!(
        words,
        "{name} {number} {unit} of SID {sid}, heard by receiver {receiver} at {heard}"
    )
}

// What an opportunity of so many minislots is used for, by the modems of an SID.
fn tell_use(words: &mut String, slots: u32, used: &str, sid: u16) -> Result<(), AllocError> {
    writeln!(words, "reserve {slots} minislots of {used} to SID {sid}")
}

// An opportunity that was asked for, and whom it is for.
fn tell_reserve(words: &mut String, usage: Usage, slots: u32) -> Result<(), AllocError> {
    match usage {
        Usage::Initial => writeln!(words, "reserve {slots} minislots of initial maintenance"),
        Usage::InitialTo(sid) => tell_use(words, slots, "initial maintenance", sid),
        Usage::Station(sid) => tell_use(words, slots, "station maintenance", sid),
        Usage::Request(sid) => tell_use(words, slots, "requests", sid),
        Usage::Quiet => writeln!(words, "reserve {slots} minislots in which nobody sends"),
        Usage::DataTo(sid) => tell_use(words, slots, "a data grant", sid),
    }
}

// A header: its UCD count, and the first and the last exponent of each backoff window.
fn tell_header(words: &mut String, header: Header) -> Result<(), AllocError> {
    let Header {
        ucd_count,
        ranging_start,
        ranging_end,
        data_start,
        data_end,
    } = header;
    writeln!(
        words,
        "header with UCD count {ucd_count}, ranging backoff {ranging_start} to {ranging_end}, data backoff \
         {data_start} to {data_end}"
    )
}

// What was asked for.
fn tell_call(words: &mut String, call: Call) -> Result<(), AllocError> {
    match call {
        Call::Admit(sid, _) => writeln!(words, "admit SID {sid}"),
        Call::Remove(sid) => writeln!(words, "remove SID {sid}"),
        Call::Ask {
            receiver,
            sid,
            amount,
            heard,
        } => tell_request(words, "ask for", receiver, sid, amount, heard),
        Call::Heard { receiver, upto } => {
            writeln!(words, "all heard by receiver {receiver} before {upto}")
        }
        Call::Build { now } => writeln!(words, "build at {now}"),
        Call::Skip { now } => writeln!(words, "skip at {now}"),
        Call::Status(sid) => writeln!(words, "status of SID {sid}"),
        Call::Reserve { usage, slots } => tell_reserve(words, usage, slots),
        Call::Header(header) => tell_header(words, header),
        Call::Replace {
            receiver,
            sid,
            amount,
            heard,
        } => tell_request(words, "replace by", receiver, sid, amount, heard),
        Call::Change(sid, _) => writeln!(words, "change SID {sid}"),
        Call::Rest(sid) => writeln!(words, "rest of SID {sid}"),
        Call::Wake(sid) => writeln!(words, "wake SID {sid}"),
    }
}

// Puts bytes that are a text behind words.
fn push_text(words: &mut String, bytes: &[u8]) -> Result<(), AllocError> {
    match str::from_utf8(bytes) {
        Ok(text) => words.push_str(text),
        Err(_) => Ok(()),
    }
}

// The line of a reply, with what a refusal means behind it.
fn line_of(alloc: Global, reply: &Reply) -> Result<String, AllocError>
    requires { IsEncodable reply.now }
{
    let (mut line, mut lines) = (Vec::new(alloc), LineBuffer::new());
    let answer: Result<Reply, Unrecorded> = Ok(reply.copy(alloc)?);
    let put = lines.put_explained(&mut line, &answer);
    if put.is_err() || lines.write_out(&mut line).is_err() {
        return Err(AllocError);
    }
    let mut words = String::new(alloc);
    push_text(&mut words, &line)?;
    Ok(words)
}

// How many lines of a table stand before those of its elements.
const HEAD_LINES: usize = 2;

// The lines of a MAP: the start and the acknowledge time of its frame in 64 bits, its table, and the bytes that each
// element grants.
fn show_map(alloc: Global, map: &FrameMap) -> Result<Shown, AllocError> {
    let (mut head, mut rows) = (String::new(alloc), String::new(alloc));
    let (mut bytes, mut table) = (Vec::new(alloc), String::new(alloc));
    if put_table(&mut bytes, &map.wire).is_err() {
        return Err(AllocError);
    }
    push_text(&mut table, &bytes)?;
    writeln!(head, "frame {} ack {}", map.start, map.ack)?;
    for (place, line) in table.lines().enumerate() {
        if place < HEAD_LINES {
            writeln!(head, "{line}")?;
        } else {
            writeln!(rows, "{line}")?;
        }
    }
    rows.push_str("bytes")?;
    for count in map.bytes.as_slice() {
        write!(rows, " {count}")?;
    }
    rows.push_str("\n")?;
    Ok(Shown { head, rows })
}

// The lines of a reply.
fn show(alloc: Global, reply: &Reply) -> Result<Shown, AllocError> {
    match reply {
        Reply::Built(map) => show_map(alloc, map),
        Reply::Admitted(_)
        | Reply::Changed(_)
        | Reply::Removed
        | Reply::Taken
        | Reply::Noted
        | Reply::Reserved
        | Reply::Skipped(_)
        | Reply::Flow { .. }
        | Reply::Refused(_) => Ok(Shown {
            head: line_of(alloc, reply)?,
            rows: String::new(alloc),
        }),
    }
}

// The first line, counted from 0, in which a text differs from another.
fn first_difference(text: &str, other: &str) -> usize {
    let mut others = other.lines();
    let mut same = 0usize;
    for line in text.lines() {
        if others.next() != Some(line) {
            return same;
        }
        same = same.saturating_add(1);
    }
    same
}

// Lines, with a mark before the first that differs from those of another text.
fn tell_lines(words: &mut String, text: &str, other: &str) -> Result<(), AllocError> {
    let first = first_difference(text, other);
    for (place, line) in text.lines().enumerate() {
        let mark = if place == first { '>' } else { ' ' };
        writeln!(words, "{mark} {line}")?;
    }
    Ok(())
}

// The lines of a reply beside those of another.
fn tell_shown(words: &mut String, shown: &Shown, other: &Shown) -> Result<(), AllocError> {
    tell_lines(words, &shown.head, &other.head)?;
    tell_lines(words, &shown.rows, &other.rows)
}

// What the lawful reply is: the only one, but for a placement, beside which there may be others.
fn praise(lawful: &Reply) -> &'static str {
    match lawful {
        Reply::Admitted(Some(_)) | Reply::Changed(Some(_)) => "expected, for example:",
        _ => "expected:",
    }
}

/// The words on the entry at this place, which is not lawful, where this reply is.
pub fn words_on(
    alloc: Global,
    place: u64,
    entry: &Entry,
    lawful: &Reply,
) -> Result<String, AllocError> {
    let mut words = String::new(alloc);
    let (found, expected) = (show(alloc, &entry.reply)?, show(alloc, lawful)?);
    write!(words, "entry {place}: ")?;
    tell_call(&mut words, entry.call)?;
    writeln!(words, "{}", praise(lawful))?;
    tell_shown(&mut words, &expected, &found)?;
    words.push_str("found:\n")?;
    tell_shown(&mut words, &found, &expected)?;
    Ok(words)
}
