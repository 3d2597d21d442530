//! Lines that are explained, on their way to a writer.

ghost use Rattle.std.specs.Prelude.{Ok};
ghost use Rattle.sched_calls.specs.Reply.{HasLine, IsEncodable};
ghost use Rattle.sched_lines.specs.Meaning.{explained_line};
ghost use Rattle.text_stream.specs.Writing.{Puts};

use super::LineBuffer;
use crate::meaning;
use sched_calls::{Reply, Unrecorded};
use text_stream::{Sink, TextFault};

impl LineBuffer {
    /// Puts the line of a reply behind those that wait, with what it means behind it where it is a refusal. Where
    /// there is no room for it, those are written first; a line that is longer than the buffer is then written too.
    pub fn put_explained_reply<W: Sink>(
        &mut self,
        writer: &mut W,
        reply: &Reply,
    ) -> Result<(), TextFault>
        requires { IsEncodable reply.now }
        ensures { Puts W.contents W.has_failed writer.old writer.new self.old self.new
            (explained_line (Ok reply.now)) result }
    {
        self.line.clear();
        if meaning::put_explained(&mut self.line, reply).is_ok() {
            return self.waiting.put(writer, self.line.as_slice());
        }
        self.write_out(writer)?;
        meaning::put_explained(writer, reply)
    }

    /// Puts the line of an answer behind those that wait: that of its reply, explained, or of a call that was not
    /// recorded.
    #[tactic(auto, unfolding(crate::specs::Meaning::explained_line, crate::specs::Line::line_of))]
    pub fn put_explained<W: Sink>(
        &mut self,
        writer: &mut W,
        answer: &Result<Reply, Unrecorded>,
    ) -> Result<(), TextFault>
        requires { HasLine answer.now }
        ensures { Puts W.contents W.has_failed writer.old writer.new self.old self.new
            (explained_line answer.now) result }
    {
        match answer {
            Ok(reply) => self.put_explained_reply(writer, reply),
            Err(unrecorded) => self.put_unrecorded(writer, *unrecorded),
        }
    }
}
