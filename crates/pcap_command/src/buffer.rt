//! What a run puts on the channel, on its way to a writer.

ghost use Rattle.std.specs.Prelude.{◌≡◌, [], OnOk};
ghost use Rattle.map_codec.specs.WireMap.{IsWellFormed};
ghost use Rattle.text_stream.specs.Writing.{Puts, Writes};
ghost use Rattle.sched_calls.specs.Reply.{HasLine};
ghost use Rattle.sched_lines.specs.Framed.{framed_line};
ghost use Rattle.pcap_command.specs.Capture.{packet_of};

use crate::packet::packet_head;
use arrayvec::ArrayVec;
use map_build::FrameMap;
use minislots::Checked;
use sched_history::{Reply, Unrecorded};
use sched_lines::{frame_of, put_framed_line};
use std::marker::Model;
use text_stream::{Sink, TextBuffer, TextFault};
use wire_frame::MAX_FRAME_BYTES;

/// The most bytes of a line that waits to be written.
const LINE_ROOM: usize = 8192;

/// What is on its way to a writer: pieces that wait, 8192 bytes in all at most.
#[derive(Drop)]
pub(crate) struct WireBuffer {
    waiting: TextBuffer,
    // The line that comes next.
    line: ArrayVec<u8, LINE_ROOM>,
}

impl Model for WireBuffer {
    ghost use Rattle.std.specs.Prelude.{ℕ, List};

    ghost Value = { List ℕ };

    ghost view = { λ b. b.waiting };
}

impl WireBuffer {
    /// A buffer in which nothing waits.
    pub(crate) fn new() -> WireBuffer
        ensures { result ≡ [] }
    {
        WireBuffer {
            waiting: TextBuffer::new(),
            line: ArrayVec::new(),
        }
    }

    /// Puts the head of a capture behind what waits.
    pub(crate) fn put_head<W: Sink>(&mut self, writer: &mut W, head: &[u8]) -> Result<(), TextFault>
        ensures { Puts W.contents W.has_failed writer.old writer.new
            self.old self.new head.now result }
    {
        self.waiting.put(writer, head)
    }

    /// Puts the packet of a MAP behind what waits.
    #[tactic(auto, unfolding(crate::specs::Capture::packet_of))]
    pub(crate) fn put_packet<W: Sink>(
        &mut self,
        writer: &mut W,
        config: &Checked,
        address: &[u8; 6],
        map: &FrameMap,
    ) -> Result<(), TextFault>
        requires { IsWellFormed map.now.wire }
        ensures { Puts W.contents W.has_failed writer.old writer.new self.old self.new
            (packet_of config.now address.now map.now) result }
    {
        let mut frame = [0u8; MAX_FRAME_BYTES];
        let len = frame_of(map, address, &mut frame);
        let head = packet_head(config, map.start, len as u32);
        self.waiting.put(writer, &head)?;
        self.waiting.put(writer, &frame[..len])
    }

    /// Puts the line of an answer behind what waits; that of a MAP has its whole frame. Where there is no room for it,
    /// what waits is written first; a line that is longer than the buffer is then written too.
    pub(crate) fn put_line<W: Sink>(
        &mut self,
        writer: &mut W,
        address: &[u8; 6],
        answer: &Result<Reply, Unrecorded>,
    ) -> Result<(), TextFault>
        requires { HasLine answer.now }
        ensures { Puts W.contents W.has_failed writer.old writer.new self.old self.new
            (framed_line address.now answer.now) result }
    {
        self.line.clear();
        if put_framed_line(&mut self.line, address, answer).is_ok() {
            return self.waiting.put(writer, self.line.as_slice());
        }
        self.write_out(writer)?;
        put_framed_line(writer, address, answer)
    }

    /// Writes what waits.
    pub(crate) fn write_out<W: Sink>(&mut self, writer: &mut W) -> Result<(), TextFault>
        ensures written { Writes W.contents W.has_failed writer.old writer.new self.old result }
        ensures empty { OnOk result (self.new ≡ []) }
    {
        self.waiting.write_out(writer)
    }
}
