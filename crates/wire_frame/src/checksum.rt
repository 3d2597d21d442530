//! The two checksums of a frame.

ghost use Rattle.std.specs.Prelude.{◌≡◌, ◌≤◌, ◌-◌, ◌+◌, ◌*◌, ◌%◌, ◌^◌, ℕ, length};
ghost use Rattle.wire_frame.specs.Checksum.{ccitt, ethernet, FindsTwoBits, HasOneSum, IsHcs, IsCrc};
ghost use Rattle.wire_frame.specs.Register.{after_byte, after_bytes, shifts};

use crate::ethernet::ethernet_of;
use crate::tables::{CCITT, ETHERNET, ccitt_of};

// A register of CRC-CCITT after one byte more.
#[inline(always)]
fn ccitt_after(register: u16, byte: u8) -> u16
    ensures { result ≡ after_byte CCITT register byte }
{
    ccitt_of((register % 256) as u8 ^ byte) ^ (register / 256)
}

// A register of CRC-32 after one byte more.
#[inline(always)]
fn ethernet_after(register: u32, byte: u8) -> u32
    ensures { result ≡ after_byte ETHERNET register byte }
{
    ethernet_of((register % 256) as u8 ^ byte, 0) ^ (register / 256)
}

// A register of CRC-32 that held four bytes, after 32 bits 0 and so many bytes 0 more.
#[inline(always)]
fn ethernet_of_four(word: u32, more: usize) -> u32
    requires { more ≤ 4 }
    ensures { result ≡ shifts ETHERNET (8 * (more + 4)) word }
{
    let [first, second, third, fourth] = word.to_le_bytes();
    ethernet_of(first, more + 3)
        ^ ethernet_of(second, more + 2)
        ^ ethernet_of(third, more + 1)
        ^ ethernet_of(fourth, more)
}

// A register of CRC-32 after eight bytes more, two words of four.
#[inline(always)]
fn ethernet_after_eight(register: u32, bytes: &[u8]) -> u32
    requires { length bytes.now ≡ 8 }
    ensures { result ≡ after_bytes ETHERNET register bytes.now }
{
    let first = u32::from_le_bytes([bytes[0], bytes[1], bytes[2], bytes[3]]);
    let second = u32::from_le_bytes([bytes[4], bytes[5], bytes[6], bytes[7]]);
    ethernet_of_four(register ^ first, 4) ^ ethernet_of_four(second, 0)
}

// A register of CRC-32 after bytes that are so many times eight, before which it is all ones.
fn ethernet_after_eights(bytes: &[u8]) -> u32
    requires { length bytes.now % 8 ≡ 0 }
    ensures { result ≡ after_bytes ETHERNET (2 ^ 32 - 1) bytes.now }
{
    let mut state = u32::MAX;
    for place in 0..bytes.len() / 8 {
        state = ethernet_after_eight(state, &bytes[8 * place..8 * place + 8]);
    }
    state
}

/// The header check sequence (HCS) of bytes, CRC-CCITT: the complement of the remainder of the bits, in the order of
/// the wire, by x^16 + x^12 + x^5 + 1, where the first 16 bits are complemented. On the wire its low byte comes first.
pub fn hcs(bytes: &[u8]) -> u16
    ensures is { IsHcs bytes.now result }
    ensures only { (sum : ℕ) → IsHcs bytes.now sum → sum ≡ result }
{
    let mut register = u16::MAX;
    for &byte in bytes {
        register = ccitt_after(register, byte);
    }
    !register
}

/// The checksum of a management message, Ethernet's CRC-32: the complement of the remainder of the bits, in the order
/// of the wire, by the generator 04C11DB7, where the first 32 bits are complemented. On the wire its low byte comes
/// first.
pub fn crc(bytes: &[u8]) -> u32
    ensures is { IsCrc bytes.now result }
    ensures only { (sum : ℕ) → IsCrc bytes.now sum → sum ≡ result }
{
    let (eights, rest) = bytes.split_at(bytes.len() / 8 * 8);
    let mut state = ethernet_after_eights(eights);
    for &byte in rest {
        state = ethernet_after(state, byte);
    }
    !state
}

/// A message has one HCS and one CRC, and no other.
pub fn every_checksum()
    ensures hcs { HasOneSum ccitt }
    ensures crc { HasOneSum ethernet }
{}

/// In a header of at most 7 bytes, its HCS among them, each change of one bit or of two is found: what is heard then is
/// no header.
pub fn every_header()
    ensures { FindsTwoBits }
{}
