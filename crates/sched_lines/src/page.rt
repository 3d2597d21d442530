//! Lines that wait to be written.

ghost use Rattle.std.specs.Prelude.{◌≡◌, ◌+◌, ◌*◌, ◌≤◌, ◌++◌, ◌↔◌, [], length, IsTrue};
ghost use Rattle.std.specs.Bool.{OnTrue, OnFalse};
ghost use Rattle.hex.specs.Hex.{encode_lower};
ghost use Rattle.sched_lines.specs.declared.page.TheConstants.{ROOM};

mod line;
mod number;
mod output;

use crate::hexadecimal::write_hex;
use std::marker::Model;

/// The most bytes that wait to be written.
pub(crate) const ROOM: usize = 8192;

/// Bytes that wait to be written: those at the front of an array. What stands behind them is left as it is, so that
/// nothing is cleared when they were written.
#[derive(Drop)]
pub(crate) struct Page {
    bytes: [u8; ROOM],
    len: usize,
}

impl Model for Page {
    ghost use Rattle.std.specs.Prelude.{◌≤◌, ℕ, List, take};
    ghost use Rattle.sched_lines.specs.declared.page.TheConstants.{ROOM};

    ghost Value = { List ℕ };

    ghost view = { λ p. take p.len p.bytes };

    ghost invariant = { λ p. p.len ≤ ROOM };
}

impl Page {
    /// No bytes.
    pub(crate) fn new() -> Page
        ensures { result ≡ [] }
    {
        Page {
            bytes: [0; ROOM],
            len: 0,
        }
    }

    /// The bytes.
    pub(crate) fn as_slice(&self) -> &[u8]
        ensures value { result.now ≡ self.now }
        ensures fits { length result.now ≤ ROOM }
    {
        &self.bytes[..self.len]
    }

    /// Whether so many bytes more have room.
    #[inline(always)]
    pub(crate) fn has_room(&self, more: usize) -> bool
        ensures { IsTrue result ↔ (length self.now + more ≤ ROOM) }
    {
        more <= ROOM - self.len
    }

    /// Lets go of the bytes.
    pub(crate) fn clear(&mut self)
        ensures { self.new ≡ [] }
    {
        self.len = 0;
    }

    /// Puts a word behind the bytes.
    #[inline(always)]
    pub(crate) fn push(&mut self, word: &[u8])
        requires { length self.old + length word.now ≤ ROOM }
        ensures { self.new ≡ self.old ++ word.now }
    {
        let end = self.len + word.len();
        self.bytes[self.len..end].copy_from_slice(word);
        self.len = end;
    }

    /// Puts the lower-case hexadecimal of bytes behind these.
    #[inline]
    pub(crate) fn push_hex(&mut self, bytes: &[u8])
        requires { length self.old + 2 * length bytes.now ≤ ROOM }
        ensures put { self.new ≡ self.old ++ encode_lower bytes.now }
        ensures exact { length self.new ≡ length self.old + 2 * length bytes.now }
    {
        let end = self.len + 2 * bytes.len();
        write_hex(bytes, &mut self.bytes[self.len..end]);
        self.len = end;
    }
}
