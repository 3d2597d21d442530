//! The lines of a run on their way to a writer.

ghost use Rattle.std.specs.Prelude.{◌≡◌, ◌∷◌, ◌++◌, [], Ok, Err, OnOk, codes};
ghost use Rattle.hex.specs.Hex.{encode_lower};
ghost use Rattle.map_codec.specs.WireMap.{IsWellFormed, spelling};
ghost use Rattle.text_stream.specs.Writing.{Puts, Writes};
ghost use Rattle.sched_lines.specs.Line.{line_of};
ghost use Rattle.sched_calls.specs.Reply.{HasLine, IsEncodable};

mod explained;

use crate::line;
use crate::page::{Page, ROOM};
use arrayvec::ArrayVec;
use map_codec::{MAX_BYTES, WireMap, encode};
use sched_calls::{Reply, Unrecorded};
use std::marker::Model;
use text_stream::{Sink, TextFault};

/// Lines on their way to a writer: those that wait to be written, whole lines of 8192 bytes in all at most.
#[derive(Drop)]
pub struct LineBuffer {
    waiting: Page,
    // The line that comes next, where it is made apart.
    line: ArrayVec<u8, ROOM>,
}

impl Model for LineBuffer {
    ghost use Rattle.std.specs.Prelude.{ℕ, List};

    ghost Value = { List ℕ };

    ghost view = { λ b. b.waiting };
}

impl LineBuffer {
    /// A buffer in which no line waits.
    pub fn new() -> LineBuffer
        ensures { result ≡ [] }
    {
        LineBuffer {
            waiting: Page::new(),
            line: ArrayVec::new(),
        }
    }

    // Puts the line of a MAP behind those that wait. It and `put_apart` stay functions of their own, so that short
    // lines save no registers for them.
    #[inline(never)]
    fn put_map<W: Sink>(&mut self, writer: &mut W, map: &WireMap) -> Result<(), TextFault>
        requires { IsWellFormed map.now }
        ensures { Puts W.contents W.has_failed writer.old writer.new self.old self.new
            (codes "map " ++ (encode_lower (spelling map.now) ++ 10 ∷ [])) result }
    {
        let mut payload = [0u8; MAX_BYTES];
        let len = encode(map, &mut payload);
        self.waiting.put_map(writer, &payload[..len])
    }

    // Puts the line of any reply behind those that wait: it is made apart first.
    #[inline(never)]
    fn put_apart<W: Sink>(&mut self, writer: &mut W, reply: &Reply) -> Result<(), TextFault>
        requires { IsEncodable reply.now }
        ensures { Puts W.contents W.has_failed writer.old writer.new self.old self.new
            (line_of (Ok reply.now)) result }
    {
        self.line.clear();
        if line::put_reply_line(&mut self.line, reply).is_ok() {
            return self.waiting.put(writer, self.line.as_slice());
        }
        self.write_out(writer)?;
        line::put_reply_line(writer, reply)
    }

    /// Puts the line of a reply behind those that wait. Where there is no room for it, those are written
    /// first; a line that is longer than the buffer is then written too.
    #[tactic(auto, unfolding(crate::specs::Line::line_of))]
    pub fn put_reply<W: Sink>(&mut self, writer: &mut W, reply: &Reply) -> Result<(), TextFault>
        requires { IsEncodable reply.now }
        ensures { Puts W.contents W.has_failed writer.old writer.new self.old self.new
            (line_of (Ok reply.now)) result }
    {
        if self.waiting.push_line(reply) {
            return Ok(());
        }
        match reply {
            Reply::Built(map) => self.put_map(writer, &map.wire),
            _ => self.put_apart(writer, reply),
        }
    }

    /// Puts the line of a call that was not recorded behind those that wait, which are written first where there is no
    /// room for it.
    pub fn put_unrecorded<W: Sink>(
        &mut self,
        writer: &mut W,
        unrecorded: Unrecorded,
    ) -> Result<(), TextFault>
        ensures { Puts W.contents W.has_failed writer.old writer.new self.old self.new
            (line_of (Err unrecorded)) result }
    {
        self.waiting.put(writer, line::unrecorded_line(unrecorded))
    }

    /// Puts the line of an answer behind those that wait: that of its reply, or of a call that was not recorded.
    pub fn put_line<W: Sink>(
        &mut self,
        writer: &mut W,
        answer: &Result<Reply, Unrecorded>,
    ) -> Result<(), TextFault>
        requires { HasLine answer.now }
        ensures { Puts W.contents W.has_failed writer.old writer.new self.old self.new
            (line_of answer.now) result }
    {
        match answer {
            Ok(reply) => self.put_reply(writer, reply),
            Err(unrecorded) => self.put_unrecorded(writer, *unrecorded),
        }
    }

    /// Writes the lines that wait.
    pub fn write_out<W: Sink>(&mut self, writer: &mut W) -> Result<(), TextFault>
        ensures written { Writes W.contents W.has_failed writer.old writer.new self.old result }
        ensures empty { OnOk result (self.new ≡ []) }
    {
        self.waiting.write_out(writer)
    }
}
