//! The verdict on a file.

ghost use Rattle.std.specs.Prelude.{◌≡◌};
ghost use Rattle.check_lines.specs.Verdict.{status_of};

use journal_entries::EntriesEnd;
use text_stream::{RunFault, TextFault};

/// What is found in a file.
#[derive(Clone, Copy, Debug, PartialEq, Eq)]
pub enum Verdict {
    /// It is a document, and this is the fault by which the command for it ends, if any.
    Document(Option<RunFault>),
    /// It is a journal, on which `audit --journal` ends so.
    Journal(EntriesEnd),
    /// It is the input of a conversation, which ends by this fault of its configuration.
    Opening(TextFault),
    /// It is the input of a conversation, in which so many lines are answered `bad line`.
    Live(u64),
}

impl Verdict {
    /// The exit status of the command for such a file: a conversation ends well, whatever lines there are.
    pub fn status(self) -> u8
        ensures { result ≡ status_of self }
    {
        match self {
            Verdict::Document(Some(fault)) => fault.status(),
            Verdict::Document(None) => 0,
            Verdict::Journal(end) => end.status(),
            Verdict::Opening(fault) => RunFault::Text(fault).status(),
            Verdict::Live(_) => 0,
        }
    }
}
