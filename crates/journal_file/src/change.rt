//! What another program does to the file of a journal.

ghost use Rattle.std.specs.Prelude.{◌≡◌};
ghost use Rattle.journal_file.specs.Change.{change_of};

use std::fmt;
use std::fmt::{Display, Formatter};
use std::fs::Metadata;
use std::os::unix::fs::MetadataExt;

/// What another program has done to the file of a journal.
#[derive(Clone, Copy, Debug, PartialEq, Eq)]
pub enum Change {
    /// It has so many bytes, where another number was left.
    Length(u64, u64),
    /// Its name leads to no file, or to another one.
    Name,
}

impl Display for Change {
    fn fmt<W: fmt::Write>(&self, f: &mut Formatter<W>) -> fmt::Result {
        match self {
            Change::Length(found, left) => write!(f, "{found} bytes, where {left} were left"),
            Change::Name => write!(f, "the name leads to no file, or to another one"),
        }
    }
}

/// What tells a file from others, and how many bytes it has.
#[derive(Clone, Copy, Debug, PartialEq, Eq)]
pub(crate) struct Seen {
    /// The number of the device that it is on.
    pub device: u64,
    /// Its number there.
    pub inode: u64,
    /// How many bytes it has.
    pub len: u64,
}

impl Seen {
    /// A file of which the system says this.
    pub fn of(found: &Metadata) -> Seen {
        Seen {
            device: found.dev(),
            inode: found.ino(),
            len: found.len(),
        }
    }

    /// What was changed of a file that was left so, where it is found so now, and its name leads there.
    pub fn change_to(self, found: Seen, named: Option<Seen>) -> Option<Change>
        ensures { result ≡ change_of self found named }
    {
        if found.len != self.len {
            return Some(Change::Length(found.len, self.len));
        }
        match named {
            Some(other) if other.device == self.device && other.inode == self.inode => None,
            _ => Some(Change::Name),
        }
    }
}
