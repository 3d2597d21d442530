//! A call of the system that failed, in words.

ghost use Rattle.std.specs.Prelude.{◌≡◌};
ghost use Rattle.journal_file.specs.Failed.{operation_words};

use std::fmt::{Display, Formatter, InlineText};
use std::{fmt, io};

/// What stands behind the system's words for an error, with its number.
const NUMBER: &str = " (os error ";

/// What a call of the system is to do with a file.
#[derive(Clone, Copy, Debug, PartialEq, Eq)]
pub enum Operation {
    /// It is opened, and made where there is none.
    Open,
    /// Its length and kind are asked for.
    Stat,
    /// It is locked.
    Lock,
    /// Bytes of it are read.
    Read,
    /// Bytes are put at its end.
    Write,
    /// A torn line is cut off.
    Truncate,
    /// What was put there reaches the device.
    Sync,
}

impl Operation {
    /// What it is called.
    pub fn words(self) -> &'static str
        ensures { result.now ≡ operation_words self }
    {
        match self {
            Operation::Open => "open",
            Operation::Stat => "stat",
            Operation::Lock => "lock",
            Operation::Read => "read",
            Operation::Write => "write",
            Operation::Truncate => "truncate",
            Operation::Sync => "sync",
        }
    }
}

/// A call of the system that failed: what it was to do, and why it was not done.
#[derive(Clone, Copy)]
pub struct FailedCall {
    /// What it was to do.
    pub operation: Operation,
    /// Why that was not done.
    pub error: io::Error,
}

// The words for an error, without a number.
fn without_number(text: &str) -> &str {
    text.split_once(NUMBER).unwrap_or((text, "")).0
}

impl Display for FailedCall {
    fn fmt<W: fmt::Write>(&self, f: &mut Formatter<W>) -> fmt::Result {
        let text = InlineText::<256>::of(self.error);
        f.write_str(without_number(text.as_str()))
    }
}
