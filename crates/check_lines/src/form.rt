//! In what form it is told what is found in a file.

/// In what form it is told what is found in a file.
#[derive(Clone, Copy, Debug, PartialEq, Eq)]
pub enum CheckForm {
    /// In lines.
    Lines,
    /// As an object in one line of JSON.
    Json,
}
