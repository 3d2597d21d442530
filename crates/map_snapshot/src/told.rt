//! What is known of what a press has published.
ghost use Rattle.std.specs.Prelude.{◌≡◌, ◌⊎◌, length};
ghost use mathlib.Core.List.{IsPrefix};
ghost use Rattle.map_snapshot.specs.Maps.{IsNewest, maps_in};

use crate::list::Seen;
use crate::printed::Printed;
use std::marker::Model;

/// What a press told: which press it is, the maps that it had published by then, and the newest of them.
#[derive(Drop)]
pub struct Told {
    pub(crate) printed: Option<Printed>,
    pub(crate) seen: Seen,
}

impl Model for Told {
    ghost use Rattle.map_snapshot.specs.Maps.{Known, IsNewest, maps_in};

    ghost Value = { Known };

    ghost view = { λ t. record { press = t.seen.book; list = maps_in t.seen.log } };

    ghost invariant = { λ t. IsNewest t.printed (maps_in t.seen.log) };
}

// The version of the newest of a list of maps, or 0 where there is none.
fn version_of(newest: &Option<Printed>) -> u64
    ensures count { (list : _) → IsNewest newest.now list → result ≡ length list }
{
    match newest {
        Some(printed) => printed.version,
        None => 0,
    }
}

// Puts a copy of what is printed in the place of what was.
fn replace(old: &mut Option<Printed>, new: &Option<Printed>)
    ensures same { old.new ≡ new.now }
{
    let Some(new) = new else {
        *old = None;
        return;
    };
    let Some(kept) = old else {
        *old = Some(*new);
        return;
    };
    kept.version = new.version;
    kept.len = new.len;
    kept.bytes.copy_from_slice(&new.bytes);
}

impl Told {
    // The newest of the maps.
    #[inline(always)]
    pub(crate) fn newest(&self) -> Option<Printed>
        ensures newest { IsNewest result self.now.list }
    {
        self.printed
    }

    // The version of the newest, or 0 where there is none.
    #[inline(always)]
    pub(crate) fn version(&self) -> u64
        ensures count { result ≡ length self.now.list }
    {
        version_of(&self.printed)
    }

    // Takes in another list of the same press, with its newest: of the two, each a beginning of what the press has
    // published, it keeps the longer.
    pub(crate) fn take_in(&mut self, printed: &Option<Printed>, seen: &Seen)
        requires newest { IsNewest printed.now (maps_in seen.now.log) }
        requires own { seen.now.book ≡ self.old.press }
        ensures press { self.new.press ≡ self.old.press }
        ensures kept { IsPrefix self.old.list self.new.list }
        ensures told { IsPrefix (maps_in seen.now.log) self.new.list }
        ensures one { (self.new.list ≡ self.old.list) ⊎ (self.new.list ≡ maps_in seen.now.log) }
    {
        let mut both = seen.again();
        both.learn(&self.seen);
        if version_of(printed) > version_of(&self.printed) {
            replace(&mut self.printed, printed);
            self.seen = seen.again();
        }
    }
}
