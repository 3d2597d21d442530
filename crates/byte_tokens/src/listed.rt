//! The numbers of a list.

ghost use Rattle.std.specs.Prelude.{◌≡◌, ◌<◌, ◌≤◌, ◌∷◌, ◌++◌, [], true, IfSome, ℕ, decimal, length, drop};
ghost use Rattle.json.specs.Token.{number};
ghost use Rattle.byte_tokens.specs.declared.between.Before.{Before};
ghost use Rattle.byte_tokens.specs.Left.{tokens_from, begins_at};
ghost use Rattle.byte_tokens.specs.Listed.{number_tokens};

use crate::between::{Before, ended_value};
use crate::numbers::number_at;
use std::alloc::Global;

// Puts the number below 2^32 that is spelled at a place behind others, and tells the place behind it.
#[inline(always)]
fn push_number(text: &[u8], from: usize, numbers: &mut Vec<u32>) -> Option<(usize, Before)>
    ensures { IfSome result (λ r. (n : ℕ) × (from < r.0) × (r.0 ≤ length text.now)
        × (numbers.new.items ≡ numbers.old.items ++ n ∷ [])
        × ((b : Before) → begins_at b ≡ true → tokens_from b (drop from text.now)
        ≡ number (decimal n) ∷ tokens_from r.1 (drop r.0 text.now))) }
{
    let (number, at) = number_at(text, from)?;
    let Ok(fits) = u32::try_from(number) else {
        return None;
    };
    let Ok(()) = numbers.push(fits) else {
        return None;
    };
    let (behind, before) = ended_value(text, at)?;
    Some((behind, before))
}

// How many numbers of a list have room before it grows.
const ROOM: usize = 64;

// The numbers below 2^32 of a list, each but the first behind a comma, and the place behind the last.
pub(crate) fn numbers_at(
    alloc: Global,
    text: &[u8],
    from: usize,
) -> Option<(Vec<u32>, usize, Before)>
    ensures within { IfSome result (λ r. r.1 ≤ length text.now) }
    ensures are { IfSome result (λ r. (b : Before) → begins_at b ≡ true → tokens_from b (drop from text.now)
        ≡ number_tokens r.0.items ++ tokens_from r.2 (drop r.1 text.now)) }
{
    let Ok(mut numbers) = Vec::with_capacity(alloc, ROOM) else {
        return None;
    };
    let (mut at, mut before) = push_number(text, from, &mut numbers)?;
    'more: while before.may_begin() {
        let (next, behind) = push_number(text, at, &mut numbers)?;
        at = next;
        before = behind;
    }
    Some((numbers, at, before))
}
