//! In what words a conversation is held.

/// In what words the answers to calls are told. What is wrong with a line is told in the same words by all of them.
#[derive(Clone, Copy, Debug, PartialEq, Eq)]
pub enum Wording {
    /// The line of a run.
    Plain,
    /// The same, and behind a refusal stands what it means.
    Explained,
    /// The line of a run with whole frames: a MAP has its MAC management message, from this address.
    Frames([u8; 6]),
}
