//! The request frames of modems.

ghost use Rattle.std.specs.Prelude.{◌≡◌, ◌≤◌, length, true, Ok, IfOk, IfErr, OnOk};
ghost use Rattle.wire_frame.specs.declared.request.Request.{Request};
ghost use Rattle.wire_frame.specs.Request.{has_length, has_kind, has_sid, HasHcs, request_in};
ghost use Rattle.wire_frame.specs.Request.{IsRequestFault, IsRequestFrame};

use crate::checksum::hcs;
use thiserror::Error;

/// The first byte of a request frame.
pub const REQUEST: u8 = 0xC4;
/// The first byte of a queue-depth request frame.
pub const QUEUE_DEPTH_REQUEST: u8 = 0xC8;

/// What a modem asks for (CM-SP-MULPIv3.0, request frame and queue-depth request frame).
#[derive(Clone, Copy, Debug, PartialEq, Eq)]
pub enum Request {
    /// A request frame: so many minislots.
    Minislots { number: u8, sid: u16 },
    /// A queue-depth request frame: so many units of N bytes, where N is the flow's.
    Queue { number: u16, sid: u16 },
}

/// The first thing that is wrong with bytes that are no request frame, in the order in which they are tested.
#[derive(Clone, Copy, Debug, PartialEq, Eq, Error)]
pub enum RequestFault {
    /// There are neither 6 bytes nor 7.
    #[error("the frame has neither 6 bytes nor 7")]
    Length,
    /// The first byte is not C4 in 6 bytes, nor C8 in 7.
    #[error("the first byte is of no request of this length")]
    Kind,
    /// One of the upper two bits of the SID is set.
    #[error("the SID has more than 14 bits")]
    Sid,
    /// The last two bytes are not the HCS of those before them.
    #[error("the header check sequence is wrong")]
    Hcs,
}

// Whether the bytes have a length of a request, and the kind of that length.
fn check_kind(bytes: &[u8]) -> Result<(), RequestFault>
    ensures length { OnOk result (has_length bytes.now ≡ true) }
    ensures kind { OnOk result (has_kind bytes.now ≡ true) }
    ensures exact { IfErr result (IsRequestFault bytes.now) }
{
    let kind = match bytes.len() {
        6 => REQUEST,
        7 => QUEUE_DEPTH_REQUEST,
        _ => return Err(RequestFault::Length),
    };
    if bytes[0] != kind {
        return Err(RequestFault::Kind);
    }
    Ok(())
}

// Whether the SID of a request has 14 bits, and whether the HCS is right.
fn check_rest(bytes: &[u8]) -> Result<(), RequestFault>
    requires length { has_length bytes.now ≡ true }
    requires kind { has_kind bytes.now ≡ true }

    ensures sid { OnOk result (has_sid bytes.now ≡ true) }
    ensures hcs { OnOk result (HasHcs bytes.now) }
    ensures exact { IfErr result (IsRequestFault bytes.now) }
{
    let end = bytes.len() - 2;
    if u16::from_be_bytes([bytes[end - 2], bytes[end - 1]]) >= 1 << 14 {
        return Err(RequestFault::Sid);
    }
    if hcs(&bytes[..end]) != u16::from_le_bytes([bytes[end], bytes[end + 1]]) {
        return Err(RequestFault::Hcs);
    }
    Ok(())
}

// The request in bytes of its length.
fn request_in(bytes: &[u8]) -> Request
    requires { has_length bytes.now ≡ true }
    ensures { result ≡ request_in bytes.now }
{
    if bytes.len() == 6 {
        Request::Minislots {
            number: bytes[1],
            sid: u16::from_be_bytes([bytes[2], bytes[3]]),
        }
    } else {
        Request::Queue {
            number: u16::from_be_bytes([bytes[1], bytes[2]]),
            sid: u16::from_be_bytes([bytes[3], bytes[4]]),
        }
    }
}

impl Request {
    /// Reads a request frame, 6 bytes, or a queue-depth request frame, 7 bytes. SID 0 and number 0 can be read. The
    /// fault is the first in the order of [`RequestFault`]. Takes no memory.
    pub fn read(bytes: &[u8]) -> Result<Request, RequestFault>
        // What is read is a request whose frame the bytes are.
        ensures found { IfOk result (λ r. IsRequestFrame r bytes.now) }

        // Each frame of a request is read.
        ensures only { (r : Request) → IsRequestFrame r bytes.now → result ≡ Ok r }

        // Which fault it is.
        ensures exact { IfErr result (IsRequestFault bytes.now) }
    {
        check_kind(bytes)?;
        check_rest(bytes)?;
        Ok(request_in(bytes))
    }
}
