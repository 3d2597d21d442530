//! What is wrong with a line, and why a conversation ends.

ghost use Rattle.std.specs.Prelude.{◌≡◌, option_map};
ghost use Rattle.text_stream.specs.declared.fault.TextFault.TheVariants.{Memory};
ghost use Rattle.live_command.specs.declared.fault.LiveFault.TheVariants.{Text};
ghost use Rattle.live_command.specs.Fault.{status_of, hint_of};
ghost use Rattle.live_command.specs.Spoken.{fault_words};

use crate::difference::Difference;
use std::alloc::AllocError;
use text_stream::{RunFault, TextFault};
use thiserror::Error;

// What a conversation begins with.
const OPENING_WANTED: &str = "the configuration has to be in one line, which is the first";

/// What is wrong with a line, in the order of the tests.
#[derive(Clone, Copy, Debug, PartialEq, Eq)]
pub enum LineFault {
    /// It has more than 65536 bytes.
    Long,
    /// It is not JSON text in UTF-8.
    Json,
    /// It is JSON, but no call.
    Shape,
}

impl LineFault {
    /// What is wrong, in words.
    pub fn words(self) -> &'static str
        ensures { result.now ≡ fault_words self }
    {
        match self {
            LineFault::Long => "bad line long",
            LineFault::Json => "bad line json",
            LineFault::Shape => "bad line shape",
        }
    }
}

/// Why a conversation ends before its input does.
#[derive(Clone, Copy, Debug, PartialEq, Eq, Error)]
pub enum LiveFault {
    /// The opening was not read, a read failed, memory ran out or an answer was not written.
    #[error(transparent)]
    Text(TextFault),
    /// The journal was not begun, or an entry was not written to it.
    #[error("journal failed")]
    Journal,
    /// The opening has another configuration than the journal that was resumed: this is the first field that differs.
    #[error("other config\n{0}")]
    OtherConfig(Difference),
    /// This line of the journal, counted from 0, is the first that is wrong.
    #[error("bad journal at {0}")]
    BadJournal(u64),
}

impl From<TextFault> for LiveFault {
    ghost from_gives = { λ fault made. made ≡ Text fault };

    fn from(fault: TextFault) -> LiveFault {
        LiveFault::Text(fault)
    }
}

impl From<AllocError> for LiveFault {
    ghost from_gives = { λ _ made. made ≡ Text Memory };

    fn from(_e: AllocError) -> LiveFault {
        LiveFault::Text(TextFault::Memory)
    }
}

impl LiveFault {
    /// What is to be said behind it, where there is more: the opening is not JSON, as where a configuration is spread
    /// over lines.
    pub fn hint(self) -> Option<&'static str>
        ensures { option_map (λ s. s.now) result ≡ hint_of self }
    {
        match self {
            LiveFault::Text(TextFault::NotJson) => Some(OPENING_WANTED),
            _ => None,
        }
    }

    /// The exit status of the program: 3 for a fault of the input, 4 for one of the machine.
    pub fn status(self) -> u8
        ensures { result ≡ status_of self }
    {
        match self {
            LiveFault::Text(fault) => RunFault::Text(fault).status(),
            LiveFault::Journal => 4,
            LiveFault::OtherConfig(_) | LiveFault::BadJournal(_) => 3,
        }
    }
}
