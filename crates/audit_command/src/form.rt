//! In what form a verdict is written.

/// What is written of a history.
#[derive(Clone, Copy, Debug, PartialEq, Eq)]
pub enum AuditForm {
    /// The line of the verdict.
    Line,
    /// That line, and words on the first entry that is not lawful.
    Explained,
    /// The verdict as JSON.
    Json,
}

/// What is written of a journal.
#[derive(Clone, Copy, Debug, PartialEq, Eq)]
pub enum JournalForm {
    /// The line of the verdict.
    Line,
    /// That line, and words on the first entry that is not lawful.
    Explained,
    /// The verdict as JSON.
    Json,
}
