//! The minislots of a frame that are taken: a bit for each, in words of 64.

ghost use Rattle.std.specs.Prelude.{◌≡◌, ℕ, ◌+◌, ◌*◌, ◌<◌, ◌≤◌, ◌⊎◌, IfSome, IfNone};
ghost use Rattle.std.specs.Int.{bit_at};
ghost use Rattle.periodic.specs.Bits.{bit_of, bit_for, IsFirstBit};

// The words of a frame of 1024 minislots, the longest there is.
const WORDS: u64 = 16;

// A bit for each minislot of a frame: bit i of the word at a place stands for minislot 64 * place + i.
#[derive(Clone, Copy)]
pub(crate) struct Bits {
    words: [u64; 16],
}

// The bits of the word at this place that stand for minislots from `from` on.
fn bits_from(place: u64, from: u64) -> u64
    requires { place < 16 }
    ensures inside { (i : ℕ) → i < 64 → from ≤ place * 64 + i → bit_at result i ≡ 1 }
    ensures outside { (i : ℕ) → place * 64 + i < from → bit_at result i ≡ 0 }
{
    let skipped = from.saturating_sub(place * 64);
    if skipped < 64 { u64::MAX << skipped } else { 0 }
}

// The bits of the word at this place that stand for minislots from `start` to before `end`.
fn bits_between(place: u64, start: u64, end: u64) -> u64
    requires { place < 16 }
    ensures inside { (i : ℕ)
        → i < 64 → start ≤ place * 64 + i → place * 64 + i < end → bit_at result i ≡ 1 }
    ensures below { (i : ℕ) → i < 64 → place * 64 + i < start → bit_at result i ≡ 0 }
    ensures above { (i : ℕ) → i < 64 → end ≤ place * 64 + i → bit_at result i ≡ 0 }
{
    bits_from(place, start) & !bits_from(place, end)
}

// The word with these bits set, or cleared.
fn written(word: u64, bits: u64, taken: bool) -> u64
    ensures inside { (i : ℕ) → i < 64 → bit_at bits i ≡ 1 → bit_at result i ≡ bit_for taken }
    ensures outside { (i : ℕ) → i < 64 → bit_at bits i ≡ 0 → bit_at result i ≡ bit_at word i }
{
    if taken { word | bits } else { word & !bits }
}

// The first minislot from `from` on whose bit is set in the word at this place, if there is one.
fn first_set(word: u64, place: u64, from: u64) -> Option<u64>
    requires { place < 16 }
    ensures found { IfSome result (IsFirstBit 1 word place from) }
    ensures absent { IfNone result ((i : ℕ) → i < 64 → from ≤ place * 64 + i → bit_at word i ≡ 0) }
{
    let bits = word & bits_from(place, from);
    if bits == 0 {
        return None;
    }
    Some(place * 64 + u64::from(bits.trailing_zeros()))
}

// The first minislot from `from` on whose bit is clear in the word at this place, if there is one.
fn first_clear(word: u64, place: u64, from: u64) -> Option<u64>
    requires { place < 16 }
    ensures found { IfSome result (IsFirstBit 0 word place from) }
    ensures absent { IfNone result ((i : ℕ) → i < 64 → from ≤ place * 64 + i → bit_at word i ≡ 1) }
{
    first_set(!word, place, from)
}

impl Bits {
    // All minislots are free.
    pub(crate) fn free() -> Self
        ensures { (m : ℕ) → bit_of result.words m ≡ 0 }
    {
        Bits { words: [0; 16] }
    }

    // Marks the minislots from `start` to before `end` as taken, or as free.
    pub(crate) fn mark(&mut self, start: u64, end: u64, taken: bool)
        ensures inside { (m : ℕ)
            → m < 1024 → start ≤ m → m < end → bit_of self.new.words m ≡ bit_for taken }
        ensures outside { (m : ℕ)
            → (m < start) ⊎ (end ≤ m) → bit_of self.new.words m ≡ bit_of self.old.words m }
    {
        for place in start / 64..(end / 64 + 1).min(WORDS) {
            let bits = bits_between(place, start, end);
            self.words[place as usize] = written(self.words[place as usize], bits, taken);
        }
    }

    // The first minislot from `from` on that is taken, or 1024.
    pub(crate) fn next_taken(&self, from: u64) -> u64
        requires { from ≤ 1024 }
        ensures most { result ≤ 1024 }
        ensures from { from ≤ result }
        ensures none_before { (m : ℕ) → from ≤ m → m < result → bit_of self.now.words m ≡ 0 }
        ensures is { result < 1024 → bit_of self.now.words result ≡ 1 }
    {
        let first = (from / 64).min(WORDS - 1);
        if let Some(taken) = first_set(self.words[first as usize], first, from) {
            return taken;
        }
        for place in first + 1..WORDS {
            if let Some(taken) = first_set(self.words[place as usize], place, 0) {
                return taken;
            }
        }
        1024
    }

    // The first minislot from `from` on that is free, or 1024.
    pub(crate) fn next_free(&self, from: u64) -> u64
        requires { from ≤ 1024 }
        ensures most { result ≤ 1024 }
        ensures from { from ≤ result }
        ensures none_before { (m : ℕ) → from ≤ m → m < result → bit_of self.now.words m ≡ 1 }
        ensures is { result < 1024 → bit_of self.now.words result ≡ 0 }
    {
        let first = (from / 64).min(WORDS - 1);
        if let Some(free) = first_clear(self.words[first as usize], first, from) {
            return free;
        }
        for place in first + 1..WORDS {
            if let Some(free) = first_clear(self.words[place as usize], place, 0) {
                return free;
            }
        }
        1024
    }
}
