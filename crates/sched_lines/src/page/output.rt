//! Bytes that wait, on their way to a writer.

ghost use Rattle.std.specs.Prelude.{◌≡◌, ◌+◌, ◌*◌, ◌≤◌, ◌∷◌, ◌++◌, [], length, codes, OnOk};
ghost use Rattle.hex.specs.Hex.{encode_lower};
ghost use Rattle.sched_lines.specs.declared.page.TheConstants.{ROOM};
ghost use Rattle.text_stream.specs.Writing.{Puts, Writes};

use super::Page;
use text_stream::{Sink, TextFault, put};

impl Page {
    /// Writes the bytes.
    pub(crate) fn write_out<W: Sink>(&mut self, writer: &mut W) -> Result<(), TextFault>
        ensures written { Writes W.contents W.has_failed writer.old writer.new self.old result }
        ensures empty { OnOk result (self.new ≡ []) }
    {
        put(writer, self.as_slice())?;
        self.clear();
        Ok(())
    }

    // Writes the bytes where there is no room for so many more.
    #[inline]
    fn make_room<W: Sink>(&mut self, writer: &mut W, more: usize) -> Result<(), TextFault>
        requires { more ≤ ROOM }
        ensures same { Puts W.contents W.has_failed writer.old writer.new self.old self.new
            [] result }
        ensures room { OnOk result (length self.new + more ≤ ROOM) }
    {
        if self.has_room(more) {
            return Ok(());
        }
        self.write_out(writer)
    }

    /// Puts a text behind the bytes, which are written first where there is no room for it.
    pub(crate) fn put<W: Sink>(&mut self, writer: &mut W, text: &[u8]) -> Result<(), TextFault>
        requires { length text.now ≤ ROOM }
        ensures { Puts W.contents W.has_failed writer.old writer.new self.old self.new
            text.now result }
    {
        self.make_room(writer, text.len())?;
        self.push(text);
        Ok(())
    }

    /// Puts the line of a MAP with this payload behind the bytes, which are written first where there is no room for
    /// it. Its digits are written where they stay.
    pub(crate) fn put_map<W: Sink>(
        &mut self,
        writer: &mut W,
        payload: &[u8],
    ) -> Result<(), TextFault>
        requires { length payload.now ≤ 976 }
        ensures { Puts W.contents W.has_failed writer.old writer.new self.old self.new
            (codes "map " ++ (encode_lower payload.now ++ 10 ∷ [])) result }
    {
        self.make_room(writer, 2 * payload.len() + 5)?;
        self.push(b"map ");
        self.push_hex(payload);
        self.push(b"\n");
        Ok(())
    }
}
