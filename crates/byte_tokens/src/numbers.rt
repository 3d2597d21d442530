//! The whole numbers that digits at a place of a text spell.

ghost use Rattle.std.specs.Prelude.{◌≡◌, ◌+◌, ◌-◌, ◌^◌, ◌<◌, ◌≤◌, ◌++◌, length, drop, decimal, get_or, ℕ};
ghost use Rattle.std.specs.Prelude.{IsTrue, IfSome};
ghost use Rattle.byte_tokens.specs.Spelled.{Spells};

use crate::spelled::byte_at;

// The greatest number to which a digit can be put.
const MOST: u64 = 1_844_674_407_370_955_160;

// How many digits fit, whatever they are.
const DIGITS: usize = 19;

/// Whether a byte is a digit.
pub(crate) fn is_digit(c: u8) -> bool
    ensures { IsTrue result → (48 ≤ c) × (c ≤ 57) }
{
    c >= b'0' && c <= b'9'
}

/// The whole number that is spelled at a place, each digit of which is put only where the number fits then, and where
/// its digits end.
pub(crate) fn long_number_at(text: &[u8], from: usize) -> Option<(u64, usize)>
    ensures { IfSome result (λ r. (r.1 ≤ length text.now) × (from < r.1) × (r.0 < 2 ^ 64)
        × (drop from text.now ≡ decimal r.0 ++ drop r.1 text.now)) }
{
    let first = byte_at(text, from);
    if !is_digit(first) || first == b'0' {
        return None;
    }
    let mut number = (first - b'0') as u64;
    let mut at = from + 1;
    'digits: while at < text.len() && is_digit(text[at]) {
        if number > MOST {
            return None;
        }
        number = number * 10 + (text[at] - b'0') as u64;
        at += 1;
    }
    Some((number, at))
}

// Whether four bytes of a text are digits.
fn four_digits(text: &[u8], at: usize) -> bool
    requires { at + 4 ≤ length text.now }
    ensures { IsTrue result → (k : ℕ) → k < 4
        → (48 ≤ get_or text.now (at + k) 0) × (get_or text.now (at + k) 0 ≤ 57) }
{
    is_digit(text[at]) & is_digit(text[at + 1]) & is_digit(text[at + 2]) & is_digit(text[at + 3])
}

/// A number with one digit more.
#[inline(always)]
pub(crate) fn put_digit(text: &[u8], from: usize, at: usize, number: u64) -> u64
    requires so_far { Spells text.now from at number }
    requires few { at + 1 - from ≤ 19 }
    requires within { at < length text.now }
    requires digit { (48 ≤ get_or text.now at 0) × (get_or text.now at 0 ≤ 57) }
    ensures { Spells text.now from (at + 1) result }
{
    number
        .wrapping_mul(10)
        .wrapping_add(text[at] as u64 - b'0' as u64)
}

// A number with four digits more.
#[inline(always)]
fn put_four(text: &[u8], from: usize, at: usize, number: u64) -> u64
    requires so_far { Spells text.now from at number }
    requires few { at + 4 - from ≤ 19 }
    requires within { at + 4 ≤ length text.now }
    requires digits { (k : ℕ) → k < 4
        → (48 ≤ get_or text.now (at + k) 0) × (get_or text.now (at + k) 0 ≤ 57) }
    ensures { Spells text.now from (at + 4) result }
{
    let one = put_digit(text, from, at, number);
    let two = put_digit(text, from, at + 1, one);
    let three = put_digit(text, from, at + 2, two);
    put_digit(text, from, at + 3, three)
}

// The whole number of at most 19 digits of which some were put, and where its digits end. No sum is tested, since so
// many digits fit.
#[inline(always)]
fn digits_behind(text: &[u8], from: usize, behind: usize, front: u64) -> Option<(u64, usize)>
    requires { Spells text.now from behind front }
    ensures { IfSome result (λ r. (r.1 ≤ length text.now) × (from < r.1) × (r.0 < 2 ^ 64)
        × (drop from text.now ≡ decimal r.0 ++ drop r.1 text.now)) }
{
    let mut number = front;
    let mut at = behind;
    'digits: while at < text.len() && is_digit(text[at]) {
        number = number
            .wrapping_mul(10)
            .wrapping_add(text[at] as u64 - b'0' as u64);
        at += 1;
    }
    if at - from > DIGITS {
        return None;
    }
    Some((number, at))
}

/// The whole number of at most 19 digits that is spelled at a place, and where its digits end.
pub(crate) fn number_at(text: &[u8], from: usize) -> Option<(u64, usize)>
    ensures { IfSome result (λ r. (r.1 ≤ length text.now) × (from < r.1) × (r.0 < 2 ^ 64)
        × (drop from text.now ≡ decimal r.0 ++ drop r.1 text.now)) }
{
    let first = byte_at(text, from);
    if !is_digit(first) {
        return None;
    }
    if first == b'0' {
        return Some((0, from + 1));
    }
    digits_behind(text, from, from + 1, (first - b'0') as u64)
}

// The number whose first eight digits stand at a place, and where its digits end.
#[inline(always)]
fn eight_at(text: &[u8], from: usize) -> Option<(u64, usize)>
    requires within { from + 12 ≤ length text.now }
    requires some { 49 ≤ get_or text.now from 0 }
    requires first { (k : ℕ) → k < 4
        → (48 ≤ get_or text.now (from + k) 0) × (get_or text.now (from + k) 0 ≤ 57) }
    requires next { (k : ℕ) → k < 4
        → (48 ≤ get_or text.now (from + 4 + k) 0) × (get_or text.now (from + 4 + k) 0 ≤ 57) }
    ensures { IfSome result (λ r. (r.1 ≤ length text.now) × (from < r.1) × (r.0 < 2 ^ 64)
        × (drop from text.now ≡ decimal r.0 ++ drop r.1 text.now)) }
{
    let one = text[from] as u64 - b'0' as u64;
    let two = put_digit(text, from, from + 1, one);
    let three = put_digit(text, from, from + 2, two);
    let four = put_digit(text, from, from + 3, three);
    let eight = put_four(text, from, from + 4, four);
    if four_digits(text, from + 8) {
        let twelve = put_four(text, from, from + 8, eight);
        return digits_behind(text, from, from + 12, twelve);
    }
    digits_behind(text, from, from + 8, eight)
}

/// The same, quickly where it has eight digits or more: their bytes are tested together.
pub(crate) fn wide_number_at(text: &[u8], from: usize) -> Option<(u64, usize)>
    requires { from ≤ length text.now }
    ensures { IfSome result (λ r. (r.1 ≤ length text.now) × (from < r.1) × (r.0 < 2 ^ 64)
        × (drop from text.now ≡ decimal r.0 ++ drop r.1 text.now)) }
{
    if text.len() - from < 12 || text[from] == b'0' {
        return number_at(text, from);
    }
    if four_digits(text, from) & four_digits(text, from + 4) {
        return eight_at(text, from);
    }
    number_at(text, from)
}
