//! Why a command ends.

ghost use Rattle.std.specs.Prelude.{◌≡◌};
ghost use Rattle.text_stream.specs.declared.run_fault.RunFault.TheVariants.{Text};
ghost use Rattle.text_stream.specs.RunFault.{exit_status_of};

use crate::fault::TextFault;
use thiserror::Error;

/// Why a command of the program ends without its output. The input is tested in the order of its faults, up to its
/// configuration; lack of memory can take the place of each of these tests. A thread is started only after them, and a
/// write is tried last.
#[derive(Clone, Copy, Debug, PartialEq, Eq, Error)]
pub enum RunFault {
    /// A text was not read or not written, for this reason.
    #[error(transparent)]
    Text(TextFault),
    /// A thread was not started.
    #[error("no thread")]
    Threads,
}

impl From<TextFault> for RunFault {
    ghost from_gives = { λ fault made. made ≡ Text fault };

    fn from(fault: TextFault) -> RunFault {
        RunFault::Text(fault)
    }
}

impl RunFault {
    /// The exit status of the program: 3 for a fault of the input, 4 for one of the machine.
    pub fn status(self) -> u8
        ensures { result ≡ exit_status_of self }
    {
        let RunFault::Text(fault) = self else {
            return 4;
        };
        match fault {
            TextFault::Input
            | TextFault::TooLong
            | TextFault::NotJson
            | TextFault::Shape(_)
            | TextFault::Config(_) => 3,
            TextFault::Memory | TextFault::Output => 4,
        }
    }
}
