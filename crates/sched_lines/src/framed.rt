//! The line of an answer, with the whole frame of its MAP where it has one.

ghost use Rattle.std.specs.Prelude.{◌≡◌};
ghost use Rattle.map_codec.specs.WireMap.{IsWellFormed};
ghost use Rattle.text_stream.specs.Writing.{Writes};
ghost use Rattle.sched_calls.specs.Reply.{HasLine};
ghost use Rattle.sched_lines.specs.Framed.{map_line, framed_line};

use crate::frame::{frame_of, map_in};
use crate::hexadecimal::write_hex;
use crate::line::put_line;
use sched_calls::{FrameMap, Reply, Unrecorded};
use text_stream::{Sink, TextFault, put};
use wire_frame::MAX_FRAME_BYTES;

// The line of a MAP.
#[tactic(auto, unfolding(crate::specs::Framed::map_line))]
fn put_map_line<W: Sink>(writer: &mut W, address: &[u8; 6], map: &FrameMap) -> Result<(), TextFault>
    requires { IsWellFormed map.now.wire }
    ensures { Writes W.contents W.has_failed writer.old writer.new
        (map_line address.now map.now) result }
{
    let mut frame = [0u8; MAX_FRAME_BYTES];
    let len = frame_of(map, address, &mut frame);
    let mut digits = [0u8; 2 * MAX_FRAME_BYTES];
    let digits = &mut digits[..2 * len];
    write_hex(&frame[..len], digits);
    put(writer, b"map ")?;
    put(writer, digits)?;
    put(writer, b"\n")
}

/// The line of the answer to a call. That of a MAP has its whole frame from the sender's address, in hexadecimal, in
/// place of its payload.
pub fn put_framed_line<W: Sink>(
    writer: &mut W,
    address: &[u8; 6],
    answer: &Result<Reply, Unrecorded>,
) -> Result<(), TextFault>
    requires { HasLine answer.now }
    ensures { Writes W.contents W.has_failed writer.old writer.new
        (framed_line address.now answer.now) result }
{
    match map_in(answer) {
        Some(map) => put_map_line(writer, address, map),
        None => put_line(writer, answer),
    }
}
