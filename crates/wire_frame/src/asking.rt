//! The bytes that a request asks for.

ghost use Rattle.std.specs.Prelude.{◌≡◌};
ghost use Rattle.wire_frame.specs.Asking.{asked_by, ask_of};

use crate::request::Request;
use minislots::{Checked, MAX_ASK};
use thiserror::Error;

/// Why a request is no ask.
#[derive(Clone, Copy, Debug, PartialEq, Eq, Error)]
pub enum AskFault {
    /// It asks for no byte: the number is 0, or a burst of so many minislots carries none.
    #[error("the request asks for no byte")]
    Nothing,
    /// It asks for more than [`MAX_ASK`] bytes.
    #[error("the request asks for more than 1048560 bytes")]
    TooMany,
}

impl Request {
    /// The bytes to ask for: the most that a burst of so many minislots carries by the configuration,
    /// or so many units of `unit` bytes. Nothing is rounded or cut: what an ask cannot have is a fault.
    pub fn bytes(self, config: &Checked, unit: u32) -> Result<u32, AskFault>
        ensures { result ≡ ask_of (asked_by config.now unit self) }
    {
        let bytes = match self {
            Request::Minislots { number, .. } => config.bytes_in(u32::from(number)),
            Request::Queue { number, .. } => u64::from(number) * u64::from(unit),
        };
        if bytes == 0 {
            return Err(AskFault::Nothing);
        }
        if bytes > u64::from(MAX_ASK) {
            return Err(AskFault::TooMany);
        }
        Ok(bytes as u32)
    }
}
