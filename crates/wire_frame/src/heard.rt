//! The frame of a MAP as it is heard: its sender's address and its payload.

ghost use Rattle.std.specs.Prelude.{◌≡◌, ◌↔◌, List, ℕ, length, true, IsTrue, IfOk, IfErr, OnOk, IsOkAnd};
ghost use Rattle.wire_frame.specs.MapFrame.{IsMapFrame, EachHasOneFrame, EachIsOfOneMap, EachMapHasItsFrame};
ghost use Rattle.wire_frame.specs.Heard.{has_all_bytes, is_management, IsBegun, HasHeaderSum, HasMessageSum, HasSums};
ghost use Rattle.wire_frame.specs.Heard.{HasMapHeader, IsMapFrameFault};

use crate::checksum::{crc, hcs};
use crate::framing::{OVERHEAD, all_modems, map_type};
use thiserror::Error;

/// What the frame of a MAP carries.
#[derive(Clone, Copy, Debug)]
pub struct MapFrame<'a> {
    /// The sender's address.
    pub address: [u8; 6],
    /// The bytes of the payload, which may be no MAP's.
    pub payload: &'a [u8],
}

/// The first thing that is wrong with bytes that are no frame of a MAP, in the order in which they are tested.
#[derive(Clone, Copy, Debug, PartialEq, Eq, Error)]
pub enum MapFrameFault {
    /// There are fewer than 30 bytes, or not as many behind the HCS as the MAC header says.
    #[error("the frame has another length than it says, or fewer than 30 bytes")]
    Length,
    /// The first two bytes are not C2 and 00, those of a management message.
    #[error("the first two bytes are of no management message")]
    Kind,
    /// The fifth and sixth byte are not the HCS of those before them.
    #[error("the header check sequence is wrong")]
    Hcs,
    /// The last four bytes are not the CRC of those behind the HCS.
    #[error("the checksum of the message is wrong")]
    Crc,
    /// A field of the management header is not that of a MAP: the receivers, the length, or what message it is.
    #[error("a field of the management header is not that of a MAP")]
    Header,
}

// Whether as many bytes are there as a frame says, and whether it is a management message.
fn check_front(bytes: &[u8]) -> Result<(), MapFrameFault>
    ensures begun { OnOk result (IsBegun bytes.now) }
    ensures exact { IfErr result (IsMapFrameFault bytes.now) }
{
    let is_short = bytes.len() < OVERHEAD;
    if is_short || usize::from(u16::from_be_bytes([bytes[2], bytes[3]])) != bytes.len() - 6 {
        return Err(MapFrameFault::Length);
    }
    if bytes[0] != 0xC2 || bytes[1] != 0x00 {
        return Err(MapFrameFault::Kind);
    }
    Ok(())
}

// Whether the HCS stands behind the MAC header, and the CRC behind the message.
fn check_sums(bytes: &[u8]) -> Result<(), MapFrameFault>
    requires { IsBegun bytes.now }
    ensures sums { OnOk result (HasSums bytes.now) }
    ensures exact { IfErr result (IsMapFrameFault bytes.now) }
{
    if bytes[4..6] != hcs(&bytes[..4]).to_le_bytes()[..] {
        return Err(MapFrameFault::Hcs);
    }
    let end = bytes.len() - 4;
    if bytes[end..] != crc(&bytes[6..end]).to_le_bytes()[..] {
        return Err(MapFrameFault::Crc);
    }
    Ok(())
}

// Whether the management header is that of a MAP.
fn has_map_header(bytes: &[u8]) -> bool
    requires { IsBegun bytes.now }
    ensures { IsTrue result ↔ HasMapHeader bytes.now }
{
    let len = (bytes.len() - 24) as u16;
    bytes[6..12] == all_modems()[..]
        && bytes[18..20] == len.to_be_bytes()[..]
        && bytes[20..26] == map_type()[..]
}

/// Reads the frame of a MAP: the sender's address, and its payload as it stands. The fault is the first in the order
/// of [`MapFrameFault`]. Takes no memory.
pub fn read_map_frame(bytes: &[u8]) -> Result<MapFrame<'_>, MapFrameFault>
    // What is read is an address and a payload whose frame the bytes are.
    ensures found { IfOk result (λ r. IsMapFrame r.address r.payload.now bytes.now) }

    // Each frame of a payload, from an address of six bytes, is read.
    ensures only { (address payload : List ℕ) → length address ≡ 6
        → IsMapFrame address payload bytes.now
        → IsOkAnd result (λ r. (r.address ≡ address) × (r.payload.now ≡ payload)) }

    // Which fault it is.
    ensures exact { IfErr result (IsMapFrameFault bytes.now) }
{
    check_front(bytes)?;
    check_sums(bytes)?;
    if !has_map_header(bytes) {
        return Err(MapFrameFault::Header);
    }
    let address = [
        bytes[12], bytes[13], bytes[14], bytes[15], bytes[16], bytes[17],
    ];
    Ok(MapFrame {
        address,
        payload: &bytes[26..bytes.len() - 4],
    })
}

/// A payload has one frame from an address, and a frame is of one address and one payload; each well formed MAP has its
/// frame, with its spelling as the payload.
pub fn every_map_frame()
    ensures one { EachHasOneFrame }
    ensures back { EachIsOfOneMap }
    ensures maps { EachMapHasItsFrame }
{}
