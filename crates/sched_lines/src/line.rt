//! The lines of a run: one for the answer to each call.

ghost use Rattle.std.specs.Prelude.{◌≡◌, ◌*◌, ◌≤◌, ◌++◌, length, Option, Ok, Err};
ghost use Rattle.std.specs.Prelude.{Some};
ghost use Rattle.map_codec.specs.WireMap.{IsWellFormed, spelling};
ghost use Rattle.hex.specs.Hex.{encode_lower};
ghost use Rattle.sched_lines.specs.Line.{number_text, numbers_text, fault_number, refusal_number, refusal_value};
ghost use Rattle.sched_lines.specs.Line.{place_text, reply_text, line_of};
ghost use Rattle.sched_calls.specs.Reply.{HasLine};
ghost use Rattle.sched_calls.specs.Reply.{IsEncodable};
ghost use Rattle.text_stream.specs.Writing.{Writes};

use crate::hexadecimal::write_hex;
use itoa::write_digits;
use map_codec::{MAX_BYTES, WireMap, encode};
use sched_calls::{FlowFault, Placement, Refusal, Reply, Unrecorded};
use text_stream::{Sink, TextFault, put};

/// A space, and a number in decimal.
#[tactic(auto, unfolding(crate::specs::Line::number_text))]
pub fn put_number<W: Sink>(writer: &mut W, number: u64) -> Result<(), TextFault>
    ensures { Writes W.contents W.has_failed writer.old writer.new (number_text number) result }
{
    let mut text = [0u8; 21];
    let start = write_digits(number, &mut text, 21);
    text[start - 1] = b' ';
    put(writer, &text[start - 1..])
}

// Numbers, each after a space.
fn put_numbers<W: Sink>(writer: &mut W, numbers: &[u16]) -> Result<(), TextFault>
    ensures { Writes W.contents W.has_failed writer.old writer.new
        (numbers_text numbers.now) result }
{
    for number in numbers {
        put_number(writer, u64::from(*number))?;
    }
    Ok(())
}

// A word, and numbers behind it.
fn put_words<W: Sink>(writer: &mut W, word: &[u8], numbers: &[u64]) -> Result<(), TextFault>
    ensures { Writes W.contents W.has_failed writer.old writer.new
        (word.now ++ numbers_text numbers.now) result }
{
    put(writer, word)?;
    for number in numbers {
        put_number(writer, *number)?;
    }
    Ok(())
}

fn fault_number(fault: FlowFault) -> u64
    ensures { result ≡ fault_number fault }
{
    match fault {
        FlowFault::Size => 1,
        FlowFault::IntervalNotWhole => 2,
        FlowFault::IntervalNotFrames => 3,
        FlowFault::IntervalNotInCycle => 4,
        FlowFault::Priority => 5,
        FlowFault::Burst => 6,
        FlowFault::Grants => 7,
        FlowFault::Reserved => 8,
    }
}

/// The number of a refusal, in the order of the tests.
pub fn refusal_number(refusal: Refusal) -> u64
    ensures { result ≡ refusal_number refusal }
{
    match refusal {
        Refusal::BadSid => 1,
        Refusal::SidLive => 2,
        Refusal::BadFlow(_) => 3,
        Refusal::FlowsFull => 4,
        Refusal::PeriodicFull => 5,
        Refusal::NoPlace => 6,
        Refusal::NoFlow => 7,
        Refusal::NotAsking => 8,
        Refusal::BadReceiver => 9,
        Refusal::BadBytes => 10,
        Refusal::Acked(_) => 11,
        Refusal::Ahead(_) => 12,
        Refusal::Backwards(_) => 13,
        Refusal::BadClock => 14,
        Refusal::TooEarly(_) => 15,
        Refusal::Late(_) => 16,
        Refusal::NotLate(_) => 17,
        Refusal::BadLength => 18,
        Refusal::ReservesFull => 19,
        Refusal::BadBackoff => 20,
        Refusal::OtherKind => 21,
        Refusal::NotUnsolicited => 22,
        Refusal::TooShort => 23,
    }
}

/// The value of a refusal that has one: a minislot, or the number of a fault in a flow's parameters.
pub fn refusal_value(refusal: Refusal) -> Option<u64>
    ensures { result ≡ refusal_value refusal }
{
    match refusal {
        Refusal::BadFlow(fault) => Some(fault_number(fault)),
        Refusal::Acked(slot)
        | Refusal::Ahead(slot)
        | Refusal::Backwards(slot)
        | Refusal::TooEarly(slot)
        | Refusal::Late(slot)
        | Refusal::NotLate(slot) => Some(slot),
        _ => None,
    }
}

fn put_refusal<W: Sink>(writer: &mut W, refusal: Refusal) -> Result<(), TextFault>
    ensures { Writes W.contents W.has_failed writer.old writer.new
        (reply_text (Reply.Refused refusal)) result }
{
    let number = refusal_number(refusal);
    match refusal_value(refusal) {
        None => put_words(writer, b"refused", &[number]),
        Some(value) => put_words(writer, b"refused", &[number, value]),
    }
}

// A word, and the place of a flow behind it.
fn put_placed<W: Sink>(writer: &mut W, word: &[u8], placement: &Placement) -> Result<(), TextFault>
    ensures { Writes W.contents W.has_failed writer.old writer.new
        (word.now ++ place_text placement.now) result }
{
    put_words(writer, word, &[placement.reference])?;
    put_numbers(writer, placement.starts.as_slice())
}

// The lower-case hexadecimal of these bytes.
fn put_hex<W: Sink>(writer: &mut W, bytes: &[u8]) -> Result<(), TextFault>
    requires { length bytes.now ≤ 976 }
    ensures { Writes W.contents W.has_failed writer.old writer.new (encode_lower bytes.now) result }
{
    let mut text = [0u8; 2 * MAX_BYTES];
    let text = &mut text[..2 * bytes.len()];
    write_hex(bytes, text);
    put(writer, text)
}

// A word, and the payload of a MAP in lower-case hexadecimal.
fn put_payload<W: Sink>(writer: &mut W, word: &[u8], map: &WireMap) -> Result<(), TextFault>
    requires { IsWellFormed map.now }
    ensures { Writes W.contents W.has_failed writer.old writer.new
        (word.now ++ encode_lower (spelling map.now)) result }
{
    let mut payload = [0u8; MAX_BYTES];
    let len = encode(map, &mut payload);
    put(writer, word)?;
    put_hex(writer, &payload[..len])
}

pub(crate) fn put_reply<W: Sink>(writer: &mut W, reply: &Reply) -> Result<(), TextFault>
    requires { IsEncodable reply.now }
    ensures { Writes W.contents W.has_failed writer.old writer.new (reply_text reply.now) result }
{
    match reply {
        Reply::Admitted(None) => put(writer, b"admitted"),
        Reply::Admitted(Some(placement)) => put_placed(writer, b"admitted", placement),
        Reply::Changed(None) => put(writer, b"changed"),
        Reply::Changed(Some(placement)) => put_placed(writer, b"changed", placement),
        Reply::Removed => put(writer, b"removed"),
        Reply::Taken => put(writer, b"taken"),
        Reply::Noted => put(writer, b"noted"),
        Reply::Reserved => put(writer, b"reserved"),
        Reply::Built(map) => put_payload(writer, b"map ", &map.wire),
        Reply::Skipped(next) => put_words(writer, b"skipped", &[*next]),
        Reply::Flow {
            asked,
            granted,
            outstanding,
        } => put_words(writer, b"flow", &[*asked, *granted, *outstanding]),
        Reply::Refused(refusal) => put_refusal(writer, *refusal),
    }
}

/// The line of a reply.
#[tactic(auto, unfolding(crate::specs::Line::line_of))]
pub(crate) fn put_reply_line<W: Sink>(writer: &mut W, reply: &Reply) -> Result<(), TextFault>
    requires { IsEncodable reply.now }
    ensures { Writes W.contents W.has_failed writer.old writer.new
        (line_of (Ok reply.now)) result }
{
    put_reply(writer, reply)?;
    put(writer, b"\n")
}

/// The line of a call that was not recorded: why it was not.
#[tactic(auto, unfolding(crate::specs::Line::line_of))]
pub(crate) fn unrecorded_line(unrecorded: Unrecorded) -> &'static [u8]
    ensures value { result.now ≡ line_of (Err unrecorded) }
    ensures short { length result.now ≤ 14 }
{
    match unrecorded {
        Unrecorded::HistoryFull => b"history full\n",
        Unrecorded::Memory => b"out of memory\n",
    }
}

/// The line of the answer to a call: its reply, or why it was not recorded.
pub(crate) fn put_line<W: Sink>(
    writer: &mut W,
    answer: &Result<Reply, Unrecorded>,
) -> Result<(), TextFault>
    requires { HasLine answer.now }
    ensures { Writes W.contents W.has_failed writer.old writer.new (line_of answer.now) result }
{
    match answer {
        Ok(reply) => put_reply_line(writer, reply),
        Err(unrecorded) => put(writer, unrecorded_line(*unrecorded)),
    }
}
