//! The exports for frames: the management message of a MAP is written, and the request frames of modems are read.

ghost use Rattle.mapsched_c.specs.Frame.{FramesMap, HearsRequest, plain_request, request_fault_number};
ghost use Rattle.std.specs.Prelude.{◌≡◌};

use crate::status;
use crate::texts::put_text;
use map_codec::MAX_BYTES;
use wire_frame::{MAX_FRAME_BYTES, Request, RequestFault, map_frame};

/// A request frame asks for minislots.
pub const ASKS_MINISLOTS: u32 = 0;
/// A queue-depth request frame tells units of the flow's queue.
pub const TELLS_QUEUE: u32 = 1;

/// Writes the MAC management message of a MAP's payload from an address of six bytes at the front of the room, and
/// tells its length. A payload longer than that of any MAP has none.
#[unsafe(no_mangle)]
pub extern "C" fn mapsched_map_frame(
    payload: &[u8],
    address: &[u8; 6],
    room: &mut [u8],
    length: &mut usize,
) -> u32
    ensures { FramesMap address.now payload.now result room.old room.new length.old length.new }
{
    if payload.len() > MAX_BYTES {
        return status::TOO_LONG;
    }
    let mut frame = [0; MAX_FRAME_BYTES];
    let len = map_frame(payload, address, &mut frame);
    put_text(&frame[..len], room, length)
}

// The number of a fault in the order of the tests, from 1.
fn fault_number(fault: RequestFault) -> u32
    ensures { result ≡ request_fault_number fault }
{
    match fault {
        RequestFault::Length => 1,
        RequestFault::Kind => 2,
        RequestFault::Sid => 3,
        RequestFault::Hcs => 4,
    }
}

// A request in numbers: its kind, its number and its SID.
fn plain_request(request: Request) -> (u32, (u16, u16))
    ensures { result ≡ plain_request request }
{
    match request {
        Request::Minislots { number, sid } => (ASKS_MINISLOTS, (u16::from(number), sid)),
        Request::Queue { number, sid } => (TELLS_QUEUE, (number, sid)),
    }
}

/// Reads a request frame, of 6 bytes, or a queue-depth request frame, of 7: tells which it is, its number and its SID.
/// Of bytes that are neither, tells the first fault by the status alone.
#[unsafe(no_mangle)]
pub extern "C" fn mapsched_request(
    bytes: &[u8],
    kind: &mut u32,
    number: &mut u16,
    sid: &mut u16,
) -> u32
    ensures { HearsRequest bytes.now result
        (kind.old, (number.old, sid.old)) (kind.new, (number.new, sid.new)) }
{
    match Request::read(bytes) {
        Ok(request) => {
            let (asked, (units, of)) = plain_request(request);
            *kind = asked;
            *number = units;
            *sid = of;
            status::OK
        }
        Err(fault) => status::BAD_REQUEST + fault_number(fault),
    }
}
