//! How far a file is a journal.

/// How far a file is a journal.
#[derive(Clone, Copy)]
pub(crate) enum Place {
    /// It was not read yet.
    Unread,
    /// No newline is among its bytes, of which there are so many.
    NoLine(u64),
    /// It is a journal of so many entries, whose whole lines end here, with so many bytes of a torn line behind.
    Resumed { entries: u64, end: u64, torn: u64 },
    /// It is a journal, behind which entries may be put.
    Whole,
    /// A call failed: bytes of a line may stand at its end, and nothing more is put there.
    Failed,
}
