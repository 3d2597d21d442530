//! The lines of a tally.

ghost use Rattle.std.specs.Prelude.{◌≤◌};
ghost use Rattle.text_stream.specs.Writing.{Writes};
ghost use Rattle.sched_storm.specs.StormLines.{seat_line, seat_lines};
ghost use Rattle.sched_storm.specs.StormLines.{newest_line, held_line, audit_line, tally_text};

use crate::tally::Tally;
use sched_lines::{put_named, put_number};
use text_stream::{Sink, TextFault, put};
use ticket_core::MAX_SEATS;

// The line of a seat: its number and its count.
#[tactic(auto, unfolding(crate::specs::StormLines::seat_line))]
fn put_seat<W: Sink>(writer: &mut W, number: u64, count: u64) -> Result<(), TextFault>
    ensures { Writes W.contents W.has_failed writer.old writer.new (seat_line number count) result }
{
    put(writer, b"seat")?;
    put_number(writer, number)?;
    put_number(writer, count)?;
    put(writer, b"\n")
}

// The lines of the first so many seats.
fn put_seats<W: Sink>(
    writer: &mut W,
    counts: &[u64; MAX_SEATS],
    workers: usize,
) -> Result<(), TextFault>
    requires { workers ≤ 64 }
    ensures { Writes W.contents W.has_failed writer.old writer.new
        (seat_lines counts.now workers) result }
{
    for number in 0..workers {
        put_seat(writer, number as u64, counts[number])?;
    }
    Ok(())
}

// The line of the version that was read last, or of none.
fn put_newest<W: Sink>(writer: &mut W, newest: Option<u64>) -> Result<(), TextFault>
    ensures { Writes W.contents W.has_failed writer.old writer.new (newest_line newest) result }
{
    match newest {
        Some(version) => put_named(writer, b"newest", version),
        None => put(writer, b"newest none\n"),
    }
}

// The line of the worker that was held, if any.
fn put_held<W: Sink>(writer: &mut W, held: Option<usize>) -> Result<(), TextFault>
    ensures { Writes W.contents W.has_failed writer.old writer.new (held_line held) result }
{
    match held {
        Some(worker) => put_named(writer, b"held", worker as u64),
        None => Ok(()),
    }
}

// The line of the audit.
fn put_audit<W: Sink>(writer: &mut W, legal: bool) -> Result<(), TextFault>
    ensures { Writes W.contents W.has_failed writer.old writer.new (audit_line legal) result }
{
    put(
        writer,
        if legal {
            b"audit legal\n"
        } else {
            b"audit illegal\n"
        },
    )
}

/// The lines of a tally of so many workers.
#[tactic(auto, unfolding(crate::specs::StormLines::tally_text))]
pub fn put_tally<W: Sink>(writer: &mut W, workers: usize, tally: &Tally) -> Result<(), TextFault>
    requires { workers ≤ 64 }
    ensures { Writes W.contents W.has_failed writer.old writer.new
        (tally_text workers tally.now) result }
{
    put_seats(writer, &tally.counts, workers)?;
    put_named(writer, b"unrecorded", tally.unrecorded)?;
    put_named(writer, b"maps", tally.maps)?;
    put_newest(writer, tally.newest)?;
    put_held(writer, tally.held)?;
    put_audit(writer, tally.legal)
}
