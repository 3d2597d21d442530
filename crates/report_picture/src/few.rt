//! A short list that takes no memory.

ghost use Rattle.std.specs.Prelude.{◌≡◌, ◌<◌, [], ◌∷◌, ◌++◌, length};

use std::marker::Model;

// A list of at most so many members.
#[derive(Drop)]
pub(crate) struct Few<T, const MOST: usize> {
    members: [T; MOST],
    count: usize,
}

impl<T, const MOST: usize> Model for Few<T, MOST> {
    ghost use Rattle.std.specs.Prelude.{◌≤◌, List, take};

    ghost Value = { List T };

    ghost view = { λ f. take f.count f.members };

    ghost invariant = { λ f. f.count ≤ MOST };
}

impl<T: Copy, const MOST: usize> Few<T, MOST> {
    // That of no members, whose places this one fills.
    pub(crate) fn none(filler: T) -> Few<T, MOST>
        ensures { result ≡ [] }
    {
        Few {
            members: [filler; MOST],
            count: 0,
        }
    }

    // Puts a member behind the others.
    pub(crate) fn push(&mut self, member: T)
        requires { length self.old < MOST }
        ensures { self.new ≡ self.old ++ member ∷ [] }
    {
        self.members[self.count] = member;
        self.count += 1;
    }

    // The members.
    pub(crate) fn as_slice(&self) -> &[T]
        ensures { result.now ≡ self.now }
    {
        &self.members[..self.count]
    }
}
