//! Sixteen bytes of a text, looked at in one step.

ghost use Rattle.std.specs.Prelude.{◌≡◌, ◌+◌, ◌<◌, ◌≤◌, ◌++◌, ℕ, length, drop, get_or, IsTrue};

use std::simd::prelude::*;

// Whether sixteen bytes of a text are those of another.
#[inline(always)]
fn same_sixteen(a: &[u8], i: usize, b: &[u8], j: usize) -> bool
    requires a_fits { i + 16 ≤ length a.now }
    requires b_fits { j + 16 ≤ length b.now }
    ensures { IsTrue result
        → (k : ℕ) → k < 16 → get_or a.now (i + k) 0 ≡ get_or b.now (j + k) 0 }
{
    u8x16::from_slice(&a[i..])
        .simd_ne(u8x16::from_slice(&b[j..]))
        .to_bitmask()
        == 0
}

/// Whether a word of 16 to 32 bytes stands at a place.
#[inline(always)]
pub(crate) fn long_word_at(text: &[u8], at: usize, word: &[u8]) -> bool
    requires { at ≤ length text.now }
    ensures { IsTrue result → (at + length word.now ≤ length text.now)
        × (drop at text.now ≡ word.now ++ drop (at + length word.now) text.now) }
{
    let count = word.len();
    if count < 16 || count > 32 || text.len() - at < count {
        return false;
    }
    let last = count - 16;
    same_sixteen(text, at, word, 0) && same_sixteen(text, at + last, word, last)
}
