//! What is told of a journal that is resumed.

ghost use Rattle.std.specs.Prelude.{◌≡◌, [], ◌∷◌, List, Option, None};
ghost use Rattle.journal_file.specs.declared.notes.Note.{Note as Told};
ghost use Rattle.journal_file.specs.Notes.{told_more};

use std::fmt;
use std::fmt::{Display, Formatter};

/// What is told of a journal that is resumed, before its conversation continues.
#[derive(Clone, Copy, Debug, PartialEq, Eq)]
pub enum Note {
    /// It has so many entries.
    Resumed(u64),
    /// So many bytes of a torn line behind them were cut off.
    Cut(u64),
}

impl Display for Note {
    fn fmt<W: fmt::Write>(&self, f: &mut Formatter<W>) -> fmt::Result {
        match self {
            Note::Resumed(entries) => write!(f, "resumed {entries}"),
            Note::Cut(bytes) => write!(f, "cut {bytes}"),
        }
    }
}

/// Where notes are told. That one is lost ends nothing.
pub trait Notes {
    /// The notes that were told, where they are known.
    ghost told: { Self → Option (List Told) } = { λ _. None };

    /// Tells one more.
    fn tell(&mut self, note: Note)
        ensures { told self.new ≡ told_more (told self.old) (note ∷ []) };
}

/// Standard error, of which no contract knows what was told.
#[derive(Drop)]
pub struct ErrorNotes<'a, R> {
    rt: &'a R,
}

impl<'a, R: Eprint> ErrorNotes<'a, R> {
    /// The standard error of a program.
    pub fn new(rt: &'a R) -> ErrorNotes<'a, R> {
        ErrorNotes { rt }
    }
}

impl<'a, R: Eprint> Notes for ErrorNotes<'a, R> {
    fn tell(&mut self, note: Note) {
        let _ = self.rt.eprintln(note);
    }
}
