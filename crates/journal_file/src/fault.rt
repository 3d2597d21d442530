//! What is wrong with the file of a journal.

ghost use Rattle.std.specs.Prelude.{◌≡◌};
ghost use Rattle.live_command.specs.declared.journal.BeginFault.TheVariants as begins;
ghost use Rattle.live_command.specs.declared.journal.RecordFault.TheVariants as records;
ghost use Rattle.journal_file.specs.declared.fault.JournalFault.TheVariants.{File, Live};
ghost use Rattle.journal_file.specs.Fault.{file_status_of, journal_status_of};

use live_command::{BeginFault, LiveFault, RecordFault};
use std::io;
use thiserror::Error;

/// What is wrong with the file of a journal.
#[derive(Clone, Copy, Debug, PartialEq, Eq, Error)]
pub enum FileFault {
    /// A call of the system failed.
    #[error("journal failed")]
    Failed,
    /// Another program has it.
    #[error("journal in use")]
    InUse,
    /// This line, counted from 0, is the first that is wrong: it stands for nothing, or for an entry that may not
    /// follow those before it.
    #[error("bad journal at {0}")]
    Bad(u64),
    /// Memory ran out.
    #[error("out of memory")]
    Memory,
}

impl FileFault {
    /// The exit status of the program: 3 for a line that is wrong, 4 for a fault of the machine.
    pub fn status(self) -> u8
        ensures { result ≡ file_status_of self }
    {
        match self {
            FileFault::Bad(_) => 3,
            FileFault::Failed | FileFault::InUse | FileFault::Memory => 4,
        }
    }
}

// A call of the system failed.
#[derive(Clone, Copy)]
pub(crate) struct CallFailed;

impl From<io::Error> for CallFailed {
    fn from(_e: io::Error) -> CallFailed {
        CallFailed
    }
}

impl From<CallFailed> for BeginFault {
    ghost from_gives = { λ _ made. made ≡ begins.Failed };

    fn from(_e: CallFailed) -> BeginFault {
        BeginFault::Failed
    }
}

impl From<CallFailed> for RecordFault {
    ghost from_gives = { λ _ made. made ≡ records.Failed };

    fn from(_e: CallFailed) -> RecordFault {
        RecordFault::Failed
    }
}

/// Why a conversation with a journal in a file ends before its input does.
#[derive(Clone, Copy, Debug, PartialEq, Eq, Error)]
pub enum JournalFault {
    /// The file is no good: it was not opened, or what it has is no journal.
    #[error(transparent)]
    File(FileFault),
    /// The conversation ended.
    #[error(transparent)]
    Live(LiveFault),
}

impl From<FileFault> for JournalFault {
    ghost from_gives = { λ fault made. made ≡ File fault };

    fn from(fault: FileFault) -> JournalFault {
        JournalFault::File(fault)
    }
}

impl From<LiveFault> for JournalFault {
    ghost from_gives = { λ fault made. made ≡ Live fault };

    fn from(fault: LiveFault) -> JournalFault {
        JournalFault::Live(fault)
    }
}

impl JournalFault {
    /// The exit status of the program: 3 for a fault of the input or of a line of the journal, 4 for one of the
    /// machine.
    pub fn status(self) -> u8
        ensures { result ≡ journal_status_of self }
    {
        match self {
            JournalFault::File(fault) => fault.status(),
            JournalFault::Live(fault) => fault.status(),
        }
    }
}
