//! What a refusal means, in words behind its line.

ghost use Rattle.std.specs.Prelude.{◌≡◌, Ok};
ghost use Rattle.sched_calls.specs.Reply.{IsEncodable};
ghost use Rattle.sched_lines.specs.Meaning.{fault_words, words_before, number_told, words_behind, digits_of};
ghost use Rattle.sched_lines.specs.Meaning.{meaning_of, refusal_as, remark_of, explained_line};
ghost use Rattle.text_stream.specs.Writing.{Writes};

use crate::line::put_reply;
use itoa::Buffer;
use sched_calls::{FlowFault, MAX_RESERVES, Refusal, Reply};
use text_stream::{Sink, TextFault, put};

// What is wrong with a flow's parameters.
fn fault_words(fault: FlowFault) -> &'static [u8]
    ensures { result.now ≡ fault_words fault }
{
    match fault {
        FlowFault::Size => b"bad size: it is 0, or does not fit a frame behind the request region",
        FlowFault::IntervalNotWhole => b"bad interval: it is not whole minislots",
        FlowFault::IntervalNotFrames => b"bad interval: it is 0 or not whole frames",
        FlowFault::IntervalNotInCycle => b"bad interval: its frames do not divide the cycle",
        FlowFault::Priority => b"bad priority: it is above 7",
        FlowFault::Burst => b"bad burst: there is a rate, and the burst is below the quantum",
        FlowFault::Grants => b"bad grants: they are 0 or above 8 in an interval",
        FlowFault::Reserved =>
            b"bad reserved burst: there is a reserved rate, and its burst is below the quantum",
    }
}

// What a refusal means, up to its number where it has one.
fn words_before(refusal: Refusal) -> &'static [u8]
    ensures { result.now ≡ words_before refusal }
{
    match refusal {
        Refusal::BadSid =>
            b"bad SID: a flow has one from 1 to 8191, and a reserve one of its usage",
        Refusal::SidLive => b"the SID is live already",
        Refusal::BadFlow(fault) => fault_words(fault),
        Refusal::FlowsFull => b"no more flows: as many are live as `flows` of the configuration",
        Refusal::PeriodicFull => {
            b"too many grants: in an interval they would be above `periodic` of the configuration"
        }
        Refusal::NoPlace => b"no place: the cycle has none that is lawful for this flow",
        Refusal::NoFlow => b"no flow with this SID is live",
        Refusal::NotAsking => b"a flow of unsolicited grants does not ask",
        Refusal::BadReceiver => b"the channel has no receiver of this number",
        Refusal::BadBytes =>
            b"bad bytes: those asked for, or that its minislots carry, are above 1048560, or 0 in an ask",
        Refusal::Acked(_) => b"too old: the receiver has handed in all that it heard before ",
        Refusal::Ahead(_) => b"too far: the next frame starts at ",
        Refusal::Backwards(_) => b"too old: the receiver's progress is ",
        Refusal::BadClock => b"bad clock: it is above 1152921504606846976",
        Refusal::TooEarly(_) => b"too early: the next frame starts at ",
        Refusal::Late(_) => b"too late: the next frame starts at ",
        Refusal::NotLate(_) => b"not late: the next frame starts at ",
        Refusal::BadLength =>
            b"bad length: it is 0, or more than a frame has behind the request region",
        Refusal::ReservesFull => b"no more reserves: there are ",
        Refusal::BadBackoff => b"bad backoff: an exponent is above 15",
        Refusal::OtherKind => b"another kind: a change leaves the kind of a flow as it is",
        Refusal::NotUnsolicited => b"only a flow of unsolicited grants rests and wakes",
        Refusal::TooShort => b"too short: its grant has fewer minislots than a poll",
    }
}

// The number that it tells: how many Reserves can wait, or a minislot.
fn number_told(refusal: Refusal) -> Option<u64>
    ensures { result ≡ number_told refusal }
{
    match refusal {
        Refusal::ReservesFull => Some(MAX_RESERVES as u64),
        Refusal::Acked(slot)
        | Refusal::Ahead(slot)
        | Refusal::Backwards(slot)
        | Refusal::TooEarly(slot)
        | Refusal::Late(slot)
        | Refusal::NotLate(slot) => Some(slot),
        _ => None,
    }
}

// The rest of its meaning.
fn words_behind(refusal: Refusal) -> &'static [u8]
    ensures { result.now ≡ words_behind refusal }
{
    match refusal {
        Refusal::ReservesFull | Refusal::Backwards(_) => b" already",
        Refusal::Ahead(_) => b", and what is heard must lie before it",
        Refusal::TooEarly(_) => b", and its end is more than 4096 minislots past the clock",
        Refusal::Late(_) => b", and the clock with its lead is past it",
        Refusal::NotLate(_) => b", and the clock with its lead is not past it",
        _ => b"",
    }
}

// A number in decimal, where there is one.
fn put_digits<W: Sink>(writer: &mut W, number: Option<u64>) -> Result<(), TextFault>
    ensures { Writes W.contents W.has_failed writer.old writer.new (digits_of number) result }
{
    match number {
        None => put(writer, b""),
        Some(number) => put(writer, Buffer::new().format(number).as_bytes()),
    }
}

/// What a refusal means, in words.
#[tactic(auto, unfolding(crate::specs::Meaning::meaning_of))]
pub fn put_meaning<W: Sink>(writer: &mut W, refusal: Refusal) -> Result<(), TextFault>
    ensures { Writes W.contents W.has_failed writer.old writer.new (meaning_of refusal) result }
{
    put(writer, words_before(refusal))?;
    put_digits(writer, number_told(refusal))?;
    put(writer, words_behind(refusal))
}

// The refusal that a reply is, where it is one.
fn refusal_as(reply: &Reply) -> Option<Refusal>
    ensures { result ≡ refusal_as reply.now }
{
    match reply {
        Reply::Refused(refusal) => Some(*refusal),
        _ => None,
    }
}

// What stands behind the text of an answer: what a refusal means.
fn put_remark<W: Sink>(writer: &mut W, refusal: Option<Refusal>) -> Result<(), TextFault>
    ensures { Writes W.contents W.has_failed writer.old writer.new (remark_of refusal) result }
{
    match refusal {
        None => put(writer, b""),
        Some(refusal) => {
            put(writer, b"  # ")?;
            put_meaning(writer, refusal)
        }
    }
}

/// The line of a reply, with what it means behind it where it is a refusal: two spaces, a number sign and the words.
#[tactic(auto, unfolding(crate::specs::Meaning::explained_line))]
pub fn put_explained<W: Sink>(writer: &mut W, reply: &Reply) -> Result<(), TextFault>
    requires { IsEncodable reply.now }
    ensures { Writes W.contents W.has_failed writer.old writer.new
        (explained_line (Ok reply.now)) result }
{
    put_reply(writer, reply)?;
    put_remark(writer, refusal_as(reply))?;
    put(writer, b"\n")
}
