//! Whole numbers of few digits, as SIDs and receivers have.

ghost use Rattle.std.specs.Prelude.{◌≡◌, ◌+◌, ◌-◌, ◌^◌, ◌<◌, ◌≤◌, ◌++◌, length, drop, decimal, get_or, IfSome};
ghost use Rattle.byte_tokens.specs.Spelled.{Spells};

use crate::numbers::{is_digit, put_digit};

// A number whose digits end at a place.
#[inline(always)]
fn spelled_so(text: &[u8], from: usize, at: usize, number: u64) -> Option<(u64, usize)>
    requires so_far { Spells text.now from at number }
    requires few { at - from ≤ 19 }
    ensures { IfSome result (λ r. (r.1 ≤ length text.now) × (from < r.1) × (r.0 < 2 ^ 64)
        × (drop from text.now ≡ decimal r.0 ++ drop r.1 text.now)) }
{
    Some((number, at))
}

// A number of two to five digits, of which the first was put. Each digit is a step of its own, with no loop.
#[inline(always)]
fn behind_first(text: &[u8], from: usize, one: u64) -> Option<(u64, usize)>
    requires within { from + 6 ≤ length text.now }
    requires so_far { Spells text.now from (from + 1) one }
    ensures { IfSome result (λ r. (r.1 ≤ length text.now) × (from < r.1) × (r.0 < 2 ^ 64)
        × (drop from text.now ≡ decimal r.0 ++ drop r.1 text.now)) }
{
    if !is_digit(text[from + 1]) {
        return spelled_so(text, from, from + 1, one);
    }
    let two = put_digit(text, from, from + 1, one);
    if !is_digit(text[from + 2]) {
        return spelled_so(text, from, from + 2, two);
    }
    let three = put_digit(text, from, from + 2, two);
    if !is_digit(text[from + 3]) {
        return spelled_so(text, from, from + 3, three);
    }
    let four = put_digit(text, from, from + 3, three);
    if !is_digit(text[from + 4]) {
        return spelled_so(text, from, from + 4, four);
    }
    let five = put_digit(text, from, from + 4, four);
    if is_digit(text[from + 5]) {
        return None;
    }
    spelled_so(text, from, from + 5, five)
}

/// The whole number of one to five digits that is spelled at a place, the first of them no 0 unless it is the only one,
/// and where its digits end.
#[inline(always)]
pub(crate) fn short_number_at(text: &[u8], from: usize) -> Option<(u64, usize)>
    requires { from + 6 ≤ length text.now }
    ensures { IfSome result (λ r. (r.1 ≤ length text.now) × (from < r.1) × (r.0 < 2 ^ 64)
        × (drop from text.now ≡ decimal r.0 ++ drop r.1 text.now)) }
{
    let first = text[from];
    if !is_digit(first) {
        return None;
    }
    if first == b'0' {
        return Some((0, from + 1));
    }
    behind_first(text, from, (first - b'0') as u64)
}
