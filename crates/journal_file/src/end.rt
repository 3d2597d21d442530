//! How a conversation with a journal in a file ends early, as it is told.

ghost use Rattle.std.specs.Prelude.{◌≡◌};
ghost use Rattle.journal_file.specs.End.{cause_of, cause_status_of};

use crate::change::Change;
use crate::failed::{FailedCall, Operation};
use crate::fault::{FileFault, JournalFault};
use live_command::LiveFault;
use std::fmt::{Display, Formatter};
use std::{fmt, io};

/// What a store says of its last call that failed.
#[derive(Clone, Copy)]
pub enum Stop {
    /// A call of the system failed.
    Failed(FailedCall),
    /// Another program has changed the file.
    Changed(Change),
}

/// Why a conversation with a journal in a file ends before its input does.
#[derive(Clone, Copy)]
pub enum Cause {
    /// For a fault of which there is no more to be said.
    Fault(JournalFault),
    /// A call of the system on the file failed.
    Failed(FailedCall),
    /// Another program has changed the file.
    Changed(Change),
}

impl Cause {
    /// The cause of a fault, where the store of the journal says this of its last call that failed.
    pub fn of(fault: JournalFault, stop: Option<Stop>) -> Cause
        ensures { result ≡ cause_of fault stop }
    {
        match (fault, stop) {
            (JournalFault::File(FileFault::Failed), Some(Stop::Failed(it))) => Cause::Failed(it),
            (JournalFault::Live(LiveFault::Journal), Some(Stop::Failed(it))) => Cause::Failed(it),
            (JournalFault::Live(LiveFault::Journal), Some(Stop::Changed(it))) => Cause::Changed(it),
            _ => Cause::Fault(fault),
        }
    }

    /// The exit status of the program: 3 for a fault of the input or of a line of the journal, 4 for one of the
    /// machine, and where another program has changed the file.
    pub fn status(self) -> u8
        ensures { result ≡ cause_status_of self }
    {
        match self {
            Cause::Fault(fault) => fault.status(),
            Cause::Failed(_) | Cause::Changed(_) => 4,
        }
    }
}

/// Why a conversation with a journal in a file ends before its input does, and the file or the folder that this is of.
/// It is told by a line for what went wrong, and by one more on what that was, where there is more to be said.
#[derive(Clone, Copy)]
pub struct JournalEnd<'a> {
    /// The file or the folder.
    pub path: &'a str,
    /// Why it ends.
    pub cause: Cause,
}

impl<'a> JournalEnd<'a> {
    /// A call of the system failed on this file or folder.
    pub(crate) fn failed(path: &'a str, operation: Operation, error: io::Error) -> JournalEnd<'a> {
        JournalEnd {
            path,
            cause: Cause::Failed(FailedCall { operation, error }),
        }
    }

    /// The exit status of the program.
    pub fn status(self) -> u8
        ensures { result ≡ cause_status_of self.entry.cause }
    {
        self.cause.status()
    }
}

impl Display for JournalEnd<'_> {
    fn fmt<W: fmt::Write>(&self, f: &mut Formatter<W>) -> fmt::Result {
        let path = self.path;
        match self.cause {
            // No call failed, but it had another length when it was read to its end.
            Cause::Fault(JournalFault::File(FileFault::Failed)) => {
                write!(f, "journal failed\nread {path}: it was changed meanwhile")
            }
            Cause::Fault(JournalFault::Live(fault)) => match fault.hint() {
                Some(hint) => write!(f, "{fault}\n{hint}"),
                None => write!(f, "{fault}"),
            },
            Cause::Fault(fault) => write!(f, "{fault}"),
            Cause::Failed(call) => {
                let what = call.operation.words();
                write!(f, "journal failed\n{what} {path}: {call}")
            }
            Cause::Changed(change) => write!(f, "journal changed\n{path}: {change}"),
        }
    }
}
