//! The press of a desk.
ghost use Rattle.std.specs.Prelude.{◌≡◌, ◌+◌, ◌≤◌, ◌++◌, [], ◌∷◌, map, length, OnOk, OnErr};
ghost use Rattle.map_snapshot.specs.declared.printed.TheConstants.{MAX_BYTES};
ghost use Rattle.map_snapshot.specs.Maps.{map_in};

use map_snapshot::{Press, Printed, Told, Whole};
use std::alloc::AllocError;
use std::marker::Model;
use std::mem::ManuallyDrop;
use std::sync::Wait;

/// A press that is with a desk, and so with a lock and its seats. A press has no `Drop`. A seat has one, since a thread
/// may be let go with what it gives back, and a seat may only where the value of its lock may: so this press may too,
/// and is then never ended. Nobody who holds the lock can leave it without its desk, and nobody can close a scheduler
/// without its seats, and then the press comes back, which has to end.
#[derive(Drop)]
pub struct Kept {
    press: ManuallyDrop<Press>,
}

impl Model for Kept {
    ghost use Rattle.std.specs.Mem.{manually_drop_value};
    ghost use Rattle.map_snapshot.specs.Maps.{Printing};

    ghost Value = { Printing };

    ghost view = { λ k. manually_drop_value k.press };
}

impl Kept {
    /// The press, which a desk has from now on.
    pub fn new(press: Press) -> Kept
        ensures { result ≡ press }
    {
        // All that is asked is that it is taken out again, by `into_press`.
        let press = unsafe { ManuallyDrop::new_unchecked(press) };
        Kept { press }
    }

    /// The press itself.
    pub fn into_press(self) -> Press
        ensures { result ≡ self }
    {
        let Kept { press } = self;
        ManuallyDrop::into_inner(press)
    }

    /// What the press tells.
    pub fn tell(&mut self) -> Told
        ensures same { self.new ≡ self.old }
        ensures told { result ≡ record { press = self.old.press; list = self.old.list } }
    {
        self.press.tell()
    }

    /// Makes room for the MAP at the press.
    pub fn append(&mut self, printed: Printed) -> Result<(), AllocError>
        requires settled { self.old.waiting ≡ [] }
        requires next { printed.version ≡ length self.old.list + 1 }
        requires fits { printed.len ≤ MAX_BYTES }
        ensures ok { OnOk result (self.new ≡ record self.old { waiting = printed ∷ [] }) }
        ensures err { OnErr result (self.new ≡ self.old) }
    {
        self.press.append(printed)
    }

    /// Shows readers the MAP that was appended, if one was.
    pub fn publish<R: Wait>(&mut self, rt: &R)
        ensures published { self.new ≡ record self.old {
          list = self.old.list ++ map map_in self.old.waiting;
          waiting = [];
        } }
    {
        self.press.publish(rt);
    }

    /// Ends the press, which tells all that it has published.
    pub fn end<R: Wait>(self, rt: &R) -> Whole
        ensures whole { result ≡ record { press = self.press; list = self.list } }
    {
        self.into_press().end(rt)
    }
}
