//! How a command over a journal ends.

ghost use Rattle.std.specs.Prelude.{◌≡◌, Some};
ghost use Rattle.journal_entries.specs.End.{status_of, words_of};

use std::fmt;

/// How a command over the entries of a journal ends, where neither a read nor a write failed. Lines and entries are
/// counted from 0, and line 0 is the configuration.
#[derive(Clone, Copy, Debug, PartialEq, Eq)]
pub enum EntriesEnd {
    /// The journal is legal. Behind its last newline stand so many bytes, which count for nothing.
    Legal(u64),
    /// This entry may not follow those before it.
    Illegal(u64),
    /// This line stands for nothing: the first for no lawful configuration, or a later one, before any illegal entry,
    /// for no entry.
    Bad(u64),
}

impl EntriesEnd {
    /// The exit status of the program: 0 for a legal journal, 1 for an illegal one, and 3 for a bad line.
    pub fn status(self) -> u8
        ensures { result ≡ status_of self }
    {
        match self {
            EntriesEnd::Legal(_) => 0,
            EntriesEnd::Illegal(_) => 1,
            EntriesEnd::Bad(_) => 3,
        }
    }

    /// Tells on standard error what is torn, illegal or bad, where anything is.
    pub fn tell(self, rt: &impl Eprint) {
        if self != EntriesEnd::Legal(0) {
            let _ = rt.eprintln(self);
        }
    }
}

impl fmt::Display for EntriesEnd {
    ghost output = { λ end. Some (words_of end) };

    fn fmt<W: fmt::Write>(&self, f: &mut fmt::Formatter<W>) -> fmt::Result {
        match self {
            EntriesEnd::Legal(torn) => write!(f, "torn {torn}"),
            EntriesEnd::Illegal(place) => write!(f, "illegal {place}"),
            EntriesEnd::Bad(line) => write!(f, "bad journal at {line}"),
        }
    }
}
