//! The MAC management message of a MAP.

ghost use Rattle.std.specs.Prelude.{◌≡◌, ◌+◌, ◌≤◌, ◌∷◌, ◌++◌, length, take, drop};
ghost use Rattle.std.specs.Int.{w16, to_be_bytes};
ghost use Rattle.wire_frame.specs.MapFrame.{all_modems, map_type, message, IsMapFrame, frame_of_map};

use crate::checksum::{crc, hcs};
use map_codec::MAX_BYTES;

/// How many bytes a frame has beside its payload.
pub const OVERHEAD: usize = 30;
/// How many bytes the frame of the longest payload has.
pub const MAX_FRAME_BYTES: usize = 1006;

// The address to which MAPs go.
pub(crate) fn all_modems() -> [u8; 6]
    ensures { result ≡ all_modems }
{
    [0x01, 0xE0, 0x2F, 0x00, 0x00, 0x01]
}

// What message it is.
pub(crate) fn map_type() -> [u8; 6]
    ensures { result ≡ map_type }
{
    [0x00, 0x00, 0x03, 0x01, 0x03, 0x00]
}

// The MAC header before its HCS, for a payload of so many bytes.
fn mac_header(len: usize) -> [u8; 4]
    requires { len ≤ MAX_BYTES }
    ensures { result ≡ 0xC2 ∷ 0x00 ∷ to_be_bytes w16 (len + 24) }
{
    let [high, low] = ((len + 24) as u16).to_be_bytes();
    [0xC2, 0x00, high, low]
}

// Writes bytes from a place on.
fn put(out: &mut [u8; MAX_FRAME_BYTES], at: usize, bytes: &[u8])
    requires { at + length bytes.now ≤ MAX_FRAME_BYTES }
    ensures { out.new ≡ take at out.old ++ bytes.now ++ drop (at + length bytes.now) out.old }
{
    out[at..at + bytes.len()].copy_from_slice(bytes);
}

// Writes the message before its CRC behind the MAC header and the HCS.
fn put_message(out: &mut [u8; MAX_FRAME_BYTES], payload: &[u8], address: &[u8; 6])
    requires { length payload.now ≤ MAX_BYTES }
    ensures { out.new
        ≡ (take 6 out.old ++ message address.now payload.now)
        ++ drop (26 + length payload.now) out.old }
{
    let len = (6 + payload.len()) as u16;
    put(out, 6, &all_modems());
    put(out, 12, address);
    put(out, 18, &len.to_be_bytes());
    put(out, 20, &map_type());
    put(out, 26, payload);
}

/// Writes the frame of a MAP's payload (CM-SP-MULPIv3.0, MAC management message) from the sender's address at the
/// front of an array, and answers how many bytes it has. The rest of the array stays. Takes no memory.
pub fn map_frame(payload: &[u8], address: &[u8; 6], out: &mut [u8; MAX_FRAME_BYTES]) -> usize
    requires { length payload.now ≤ MAX_BYTES }

    // What stands in front is the frame, also as the function by which texts are told.
    ensures frame { IsMapFrame address.now payload.now (take result out.new) }
    ensures exact { take result out.new ≡ frame_of_map address.now payload.now }
    ensures len { result ≡ OVERHEAD + length payload.now }
    ensures rest { drop result out.new ≡ drop result out.old }
{
    let header = mac_header(payload.len());
    put(out, 0, &header);
    put(out, 4, &hcs(&header).to_le_bytes());
    put_message(out, payload, address);
    let end = 26 + payload.len();
    let sum = crc(&out[6..end]);
    put(out, end, &sum.to_le_bytes());
    end + 4
}
