//! Text on its way to a writer.

ghost use Rattle.std.specs.Prelude.{◌≡◌, ◌≤◌, [], length, OnOk};
ghost use Rattle.text_stream.specs.declared.waiting.TheConstants.{ROOM};
ghost use Rattle.text_stream.specs.Writing.{Puts, Writes};

use crate::fault::TextFault;
use crate::output::put;
use crate::waiting::{ROOM, Waiting};
use crate::watched::Sink;
use std::marker::Model;

/// Text on its way to a writer: the pieces that wait to be written, 8192 bytes of whole pieces at most.
#[derive(Drop)]
pub struct TextBuffer {
    waiting: Waiting,
}

impl Model for TextBuffer {
    ghost use Rattle.std.specs.Prelude.{ℕ, List};

    ghost Value = { List ℕ };

    ghost view = { λ b. b.waiting };
}

// Writes the bytes that wait.
fn write_waiting<W: Sink>(waiting: &mut Waiting, writer: &mut W) -> Result<(), TextFault>
    ensures written { Writes W.contents W.has_failed writer.old writer.new
        waiting.old result }
    ensures empty { OnOk result (waiting.new ≡ []) }
{
    put(writer, waiting.as_slice())?;
    waiting.clear();
    Ok(())
}

// Puts a text behind those that wait, which are written first where there is no room for it.
fn append<W: Sink>(waiting: &mut Waiting, writer: &mut W, text: &[u8]) -> Result<(), TextFault>
    requires { length text.now ≤ ROOM }
    ensures { Puts W.contents W.has_failed writer.old writer.new waiting.old waiting.new
        text.now result }
{
    if !waiting.try_extend(text) {
        write_waiting(waiting, writer)?;
        let _fits = waiting.try_extend(text);
    }
    Ok(())
}

impl TextBuffer {
    /// A buffer in which no text waits.
    pub fn new() -> TextBuffer
        ensures { result ≡ [] }
    {
        TextBuffer {
            waiting: Waiting::new(),
        }
    }

    /// Puts a text behind those that wait. Where there is no room for it, those are written first; a text that is
    /// longer than the buffer is then written too.
    pub fn put<W: Sink>(&mut self, writer: &mut W, text: &[u8]) -> Result<(), TextFault>
        ensures { Puts W.contents W.has_failed writer.old writer.new self.old self.new
            text.now result }
    {
        if text.len() <= ROOM {
            return append(&mut self.waiting, writer, text);
        }
        self.write_out(writer)?;
        put(writer, text)
    }

    /// Writes the texts that wait.
    pub fn write_out<W: Sink>(&mut self, writer: &mut W) -> Result<(), TextFault>
        ensures written { Writes W.contents W.has_failed writer.old writer.new self.old result }
        ensures empty { OnOk result (self.new ≡ []) }
    {
        write_waiting(&mut self.waiting, writer)
    }
}
