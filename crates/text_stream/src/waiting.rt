//! Bytes that wait to be written.

ghost use Rattle.std.specs.Prelude.{◌≡◌, ◌+◌, ◌≤◌, ◌++◌, ◌↔◌, [], length, IsTrue};
ghost use Rattle.std.specs.Bool.{OnTrue, OnFalse};
ghost use Rattle.text_stream.specs.declared.waiting.TheConstants.{ROOM};

use std::marker::Model;

/// The most bytes that wait to be written.
pub(crate) const ROOM: usize = 8192;

/// Bytes that wait to be written: those at the front of an array. What stands behind them is left as it is, so that
/// nothing is cleared when they were written.
#[derive(Drop)]
pub(crate) struct Waiting {
    bytes: [u8; ROOM],
    len: usize,
}

impl Model for Waiting {
    ghost use Rattle.std.specs.Prelude.{◌≤◌, ℕ, List, take};
    ghost use Rattle.text_stream.specs.declared.waiting.TheConstants.{ROOM};

    ghost Value = { List ℕ };

    ghost view = { λ w. take w.len w.bytes };

    ghost invariant = { λ w. w.len ≤ ROOM };
}

impl Waiting {
    /// No bytes.
    pub(crate) fn new() -> Waiting
        ensures { result ≡ [] }
    {
        Waiting {
            bytes: [0; ROOM],
            len: 0,
        }
    }

    /// The bytes.
    pub(crate) fn as_slice(&self) -> &[u8]
        ensures value { result.now ≡ self.now }
        ensures fits { length result.now ≤ ROOM }
    {
        &self.bytes[..self.len]
    }

    /// Puts a text behind the bytes, where there is room for all of it.
    pub(crate) fn try_extend(&mut self, text: &[u8]) -> bool
        ensures variant { IsTrue result ↔ (length self.old + length text.now ≤ ROOM) }
        ensures put { OnTrue result (self.new ≡ self.old ++ text.now) }
        ensures full { OnFalse result (self.new ≡ self.old) }
    {
        if ROOM - self.len < text.len() {
            return false;
        }
        let end = self.len + text.len();
        self.bytes[self.len..end].copy_from_slice(text);
        self.len = end;
        true
    }

    /// Lets go of the bytes.
    pub(crate) fn clear(&mut self)
        ensures { self.new ≡ [] }
    {
        self.len = 0;
    }
}
