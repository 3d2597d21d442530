//! Hexadecimal digits in quotes.

ghost use Rattle.std.specs.Prelude.{◌≡◌, ◌<◌, ◌≤◌, ◌*◌, ◌∷◌, ◌++◌, ℕ, List, Some, Ok, IsTrue, IfSome, length, drop};
ghost use Rattle.json.specs.Print.{escape};
ghost use Rattle.hex.specs.Hex.{decode_of, hex_digit_value};
ghost use Rattle.byte_tokens.specs.Hexadecimal.{digit_value};

use super::spelled::byte_at;
use memchr::memchr;
use std::alloc::Global;

// Whether a byte is a digit of either case. No branch, so that many are looked at in one step.
#[inline(always)]
fn is_digit(c: u8) -> bool
    ensures { IsTrue result → (hex_digit_value c ≡ Some (digit_value c)) × (digit_value c < 16) }
{
    ((c >= b'0') & (c <= b'9')) | ((c >= b'A') & (c <= b'F')) | ((c >= b'a') & (c <= b'f'))
}

// The value of a digit of either case: a letter, which has one of the two highest bits, stands 9 behind its last four.
#[inline(always)]
fn value(c: u8) -> u8
    ensures { result ≡ digit_value c }
{
    c % 16 + c / 64 * 9
}

// Puts the bytes that digits spell in pairs, and tells whether all are digits.
fn put_pairs(digits: &[u8], out: &mut [u8]) -> bool
    requires { length digits.now ≡ 2 * length out.old }
    ensures { IsTrue result → decode_of digits.now ≡ Ok out.new }
{
    let mut good = true;
    'pairs: for i in 0..out.len() {
        let high = digits[2 * i];
        let low = digits[2 * i + 1];
        out[i] = value(high).wrapping_mul(16).wrapping_add(value(low));
        good = good & is_digit(high) & is_digit(low);
    }
    good
}

// The bytes that digits spell, if all are digits and memory is left.
fn decoded(alloc: Global, digits: &[u8]) -> Option<Vec<u8>>
    ensures { IfSome result (λ bytes. decode_of digits.now ≡ Ok bytes.items) }
{
    let Ok(mut bytes) = vec![in alloc; 0u8; digits.len() / 2] else {
        return None;
    };
    if digits.len() % 2 != 0 || !put_pairs(digits, bytes.as_mut_slice()) {
        return None;
    }
    Some(bytes)
}

/// The bytes whose digits stand in quotes at a place, and the place behind them.
pub(crate) fn hex_at(alloc: Global, text: &[u8], at: usize) -> Option<(Vec<u8>, usize)>
    ensures { IfSome result (λ r. (s : List ℕ) × (escape s ≡ s) × (decode_of s ≡ Ok r.0.items)
        × (r.1 ≤ length text.now)
        × (drop at text.now ≡ 34 ∷ (s ++ 34 ∷ drop r.1 text.now))) }
{
    if byte_at(text, at) != b'"' {
        return None;
    }
    let behind = &text[at + 1..];
    let stop = memchr(b'"', behind)?;
    let bytes = decoded(alloc, &behind[..stop])?;
    Some((bytes, at + 1 + stop + 1))
}
