//! The MAP that an answer has, and its frame.

ghost use Rattle.std.specs.Prelude.{◌≡◌, ◌≤◌, take, IfSome, None, Some};
ghost use Rattle.map_codec.specs.WireMap.{IsWellFormed};
ghost use Rattle.sched_lines.specs.Framed.{map_in, frame_of};

use map_codec::{MAX_BYTES, encode};
use sched_calls::{FrameMap, Reply, Unrecorded};
use wire_frame::{MAX_FRAME_BYTES, map_frame};

/// The MAP that an answer has, and none where it has none.
pub fn map_in(answer: &Result<Reply, Unrecorded>) -> Option<&FrameMap>
    ensures some { IfSome result (λ m. map_in answer.now ≡ Some m.now) }
    ensures none { result ≡ None → map_in answer.now ≡ None }
{
    match answer {
        Ok(Reply::Built(map)) => Some(map),
        _ => None,
    }
}

/// Writes the frame of a MAP (CM-SP-MULPIv3.0, MAC management message) from the sender's address at the front of an
/// array, and answers how many bytes it has. Takes no memory.
pub fn frame_of(map: &FrameMap, address: &[u8; 6], out: &mut [u8; MAX_FRAME_BYTES]) -> usize
    requires { IsWellFormed map.now.wire }
    ensures frame { take result out.new ≡ frame_of address.now map.now }
    ensures fits { result ≤ MAX_FRAME_BYTES }
{
    let mut payload = [0u8; MAX_BYTES];
    let len = encode(&map.wire, &mut payload);
    map_frame(&payload[..len], address, out)
}
