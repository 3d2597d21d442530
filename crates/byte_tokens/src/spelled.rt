//! What is spelled at a place of a text.

ghost use Rattle.std.specs.Prelude.{◌≡◌, ◌+◌, ◌-◌, ◌^◌, ◌<◌, ◌≤◌, ◌⊎◌, ◌∷◌, ◌++◌, length, take};
ghost use Rattle.std.specs.Prelude.{drop, decimal, get_or, ℕ, IsTrue, IfSome};
ghost use Rattle.json.specs.Print.{escape};
ghost use Rattle.byte_tokens.specs.Spelled.{Spells};

/// The byte at a place, or 0 at the end.
pub(crate) fn byte_at(text: &[u8], at: usize) -> u8
    ensures within { 0 < result → at < length text.now }
    ensures here { 0 < result → drop at text.now ≡ result ∷ drop (at + 1) text.now }
{
    if at < text.len() { text[at] } else { 0 }
}

// Whether four bytes of a text are those of another.
fn same_four(a: &[u8], i: usize, b: &[u8], j: usize) -> bool
    requires a_fits { i + 4 ≤ length a.now }
    requires b_fits { j + 4 ≤ length b.now }
    ensures { IsTrue result
        → (k : ℕ) → k < 4 → get_or a.now (i + k) 0 ≡ get_or b.now (j + k) 0 }
{
    (a[i] == b[j]) & (a[i + 1] == b[j + 1]) & (a[i + 2] == b[j + 2]) & (a[i + 3] == b[j + 3])
}

// Whether a word of 4 to 12 bytes stands at a place before the end. Parts of four bytes, which may overlap, cover it,
// so that a word that is known is compared in two or three steps.
#[inline(always)]
fn same_parts(text: &[u8], at: usize, word: &[u8]) -> bool
    requires few { (4 ≤ length word.now) × (length word.now ≤ 12) }
    requires within { at + length word.now ≤ length text.now }
    ensures { IsTrue result → drop at text.now ≡ word.now ++ drop (at + length word.now) text.now }
{
    let last = word.len() - 4;
    if !same_four(text, at, word, 0) || !same_four(text, at + last, word, last) {
        return false;
    }
    last <= 4 || same_four(text, at + 4, word, 4)
}

/// Whether a word of 4 to 12 bytes stands at a place.
#[inline(always)]
pub(crate) fn stands_at(text: &[u8], at: usize, word: &[u8]) -> bool
    requires { at ≤ length text.now }
    ensures { IsTrue result → (at + length word.now ≤ length text.now)
        × (drop at text.now ≡ word.now ++ drop (at + length word.now) text.now) }
{
    let count = word.len();
    if count < 4 || count > 12 || text.len() - at < count {
        return false;
    }
    same_parts(text, at, word)
}

/// Whether a word of 6 to 14 bytes stands at a place. Its first two bytes are compared one by one: where the second was
/// looked at before, what is left to compare is in whole parts.
#[inline(always)]
pub(crate) fn quoted_word_at(text: &[u8], at: usize, word: &[u8]) -> bool
    requires { at ≤ length text.now }
    ensures { IsTrue result → (at + length word.now ≤ length text.now)
        × (drop at text.now ≡ word.now ++ drop (at + length word.now) text.now) }
{
    let count = word.len();
    if count < 6 || count > 14 || text.len() - at < count {
        return false;
    }
    if text[at] != word[0] || text[at + 1] != word[1] {
        return false;
    }
    same_parts(text, at + 2, &word[2..])
}

// Whether a byte stands for itself in quotes, and is none that keys and names have seldom: a space or an exclamation
// mark.
fn is_plain(c: u8) -> bool
    ensures { IsTrue result → (32 ≤ c) × ((c ≡ 34 → ⊥) × (c ≡ 92 → ⊥)) }
{
    c > b'"' && c != b'\\'
}

/// Where the bytes from a place on that stand for themselves in quotes end.
pub(crate) fn plain_end(text: &[u8], from: usize) -> usize
    requires { from ≤ length text.now }
    ensures within { (from ≤ result) × (result ≤ length text.now) }
    ensures plain { escape (take (result - from) (drop from text.now))
        ≡ take (result - from) (drop from text.now) }
{
    let mut at = from;
    'bytes: while at < text.len() && is_plain(text[at]) {
        at += 1;
    }
    at
}

/// The text in quotes that begins at a place, where no byte of it has an escape, and the place behind it.
pub(crate) fn quoted<'a>(text: &'a str, at: usize) -> Option<(&'a str, usize)>
    ensures { IfSome result (λ r. (escape r.0.now ≡ r.0.now) × (r.1 ≤ length text.now)
        × (drop at text.now ≡ 34 ∷ (r.0.now ++ 34 ∷ drop r.1 text.now))) }
{
    let bytes = text.as_bytes();
    if byte_at(bytes, at) != b'"' {
        return None;
    }
    let stop = plain_end(bytes, at + 1);
    if byte_at(bytes, stop) != b'"' {
        return None;
    }
    Some((&text[at + 1..stop], stop + 1))
}
