//! A reader of tokens.

ghost use Rattle.std.specs.Prelude.{◌≡◌, ◌^◌, ◌<◌, ◌≤◌, ◌∷◌, ◌++◌, [], true, Some, IsTrue, IfSome, option_map};
ghost use Rattle.std.specs.Prelude.{List, ℕ, Ok, decimal, length, drop};
ghost use Rattle.json.specs.Print.{escape};
ghost use Rattle.std.specs.Bool.{MatchBool};
ghost use Rattle.json.specs.Token.{begin_object, end_object, begin_array, end_array, key, string, number};
ghost use Rattle.json.specs.Lex.{tokens, between, lex, after_value, punctuate};
ghost use Rattle.json.specs.Json.{read_key};
ghost use Rattle.hex.specs.Hex.{decode_of};
ghost use Rattle.byte_tokens.specs.declared.between.Before.{Before};
ghost use Rattle.byte_tokens.specs.Left.{tokens_from, begins_at, closes_at, EndsValue};
ghost use Rattle.byte_tokens.specs.Listed.{number_tokens};
ghost use Rattle.byte_tokens.specs.Spelled.{spelled_key, spelled_text};

mod runs;

use super::between::{Before, behind_gap, behind_space, behind_value, ended_value};
use super::hexadecimal::hex_at;
use super::listed::numbers_at;
use super::numbers::{long_number_at, number_at, wide_number_at};
use super::spelled::{byte_at, quoted, quoted_word_at, stands_at};
use std::alloc::Global;
use std::marker::Model;

/// A reader of the tokens of a text, with any white space between them. Where it takes no token, there may be one in
/// another spelling, or none. A clause sees the tokens that are left.
#[derive(Drop)]
pub struct Quick<'a> {
    text: &'a str,
    at: usize,
    before: Before,
}

impl<'a> Model for Quick<'a> {
    ghost use Rattle.std.specs.Prelude.{◌≤◌, List, length, drop};
    ghost use Rattle.json.specs.Token.{Token, tokens_code};
    ghost use Rattle.byte_tokens.specs.Left.{tokens_from};

    ghost Value = { List Token };

    ghost coded = { tokens_code };

    ghost view = { λ a. tokens_from a.before (drop a.at a.text.now) };

    ghost invariant = { λ a. a.at ≤ length a.text.now };
}

impl<'a> Quick<'a> {
    /// A reader of the tokens of this text.
    pub fn new(text: &'a str) -> Quick<'a>
        ensures { result ≡ tokens text.now }
    {
        Quick {
            text,
            at: behind_gap(text.as_bytes(), 0),
            before: Before::Opening,
        }
    }

    /// Another reader of the tokens that are left, for what may have to be read once more.
    pub fn again(&self) -> Quick<'a>
        ensures { result ≡ self.now }
    {
        Quick {
            text: self.text,
            at: self.at,
            before: self.before,
        }
    }

    /// Takes the brace that opens an object.
    pub fn open_object(&mut self) -> bool
        ensures { IsTrue result → self.old ≡ begin_object ∷ self.new }
    {
        let text = self.text.as_bytes();
        if !self.before.may_begin() || byte_at(text, self.at) != b'{' {
            return false;
        }
        self.at = behind_gap(text, self.at + 1);
        self.before = Before::Opening;
        true
    }

    /// Takes the bracket that opens an array.
    pub fn open_array(&mut self) -> bool
        ensures { IsTrue result → self.old ≡ begin_array ∷ self.new }
    {
        let text = self.text.as_bytes();
        if !self.before.may_begin() || byte_at(text, self.at) != b'[' {
            return false;
        }
        self.at = behind_gap(text, self.at + 1);
        self.before = Before::Opening;
        true
    }

    /// Takes the bracket that closes an array, if it is next.
    #[inline(always)]
    pub fn take_end_array(&mut self) -> bool
        ensures { MatchBool result (self.old ≡ end_array ∷ self.new) (self.new ≡ self.old) }
    {
        let text = self.text.as_bytes();
        if !self.before.may_close() || byte_at(text, self.at) != b']' {
            return false;
        }
        let (at, before) = behind_value(text, self.at + 1);
        self.at = at;
        self.before = before;
        true
    }

    /// Takes the brace that closes an object, if it is next.
    #[inline(always)]
    pub fn take_end_object(&mut self) -> bool
        ensures { MatchBool result (self.old ≡ end_object ∷ self.new) (self.new ≡ self.old) }
    {
        let text = self.text.as_bytes();
        if !self.before.may_close() || byte_at(text, self.at) != b'}' {
            return false;
        }
        let (at, before) = behind_value(text, self.at + 1);
        self.at = at;
        self.before = before;
        true
    }

    // Takes a key.
    fn take_key(&mut self) -> Option<&'a str>
        ensures { IfSome result (λ s. self.old ≡ key s.now ∷ self.new) }
    {
        if !self.before.may_begin() {
            return None;
        }
        let (found, end) = quoted(self.text, self.at)?;
        let text = self.text.as_bytes();
        let at = behind_gap(text, end);
        if byte_at(text, at) != b':' {
            return None;
        }
        self.at = behind_space(text, at + 1);
        self.before = Before::Opening;
        Some(found)
    }

    /// Takes the key that is spelled so, in quotes and with its colon, if it is next. Where the spelling is known when
    /// it is compiled, and has at most 14 bytes, this costs a few comparisons.
    #[inline(always)]
    pub fn take_spelled_key(&mut self, spelled: &str) -> bool
        ensures { MatchBool result ((name : List ℕ) → escape name ≡ name
            → spelled.now ≡ spelled_key name → self.old ≡ key name ∷ self.new)
            (self.new ≡ self.old) }
    {
        let text = self.text.as_bytes();
        if !self.before.may_begin() || !quoted_word_at(text, self.at, spelled.as_bytes()) {
            return false;
        }
        self.at = behind_space(text, self.at + spelled.len());
        self.before = Before::Opening;
        true
    }

    /// Takes the text that is spelled so, in quotes, if it is next, in the same way.
    #[inline(always)]
    pub fn take_spelled_text(&mut self, spelled: &str) -> bool
        ensures { MatchBool result ((content : List ℕ) → escape content ≡ content
            → spelled.now ≡ spelled_text content → self.old ≡ string content ∷ self.new)
            (self.new ≡ self.old) }
    {
        let text = self.text.as_bytes();
        if !self.before.may_begin() || !stands_at(text, self.at, spelled.as_bytes()) {
            return false;
        }
        let Some((at, before)) = ended_value(text, self.at + spelled.len()) else {
            return false;
        };
        self.at = at;
        self.before = before;
        true
    }

    /// Takes a key, or the brace that closes an object.
    pub fn next_key(&mut self) -> Option<Option<&'a str>>
        ensures { IfSome result
            (λ k. read_key self.old ≡ Some (option_map (λ s. s.now) k, self.new)) }
    {
        if self.take_end_object() {
            return Some(None);
        }
        let key = self.take_key()?;
        Some(Some(key))
    }

    /// Takes a text.
    pub fn take_text(&mut self) -> Option<&'a str>
        ensures { IfSome result (λ s. self.old ≡ string s.now ∷ self.new) }
    {
        if !self.before.may_begin() {
            return None;
        }
        let (found, at) = quoted(self.text, self.at)?;
        let text = self.text.as_bytes();
        let (at, before) = ended_value(text, at)?;
        self.at = at;
        self.before = before;
        Some(found)
    }

    /// Takes a text of hexadecimal digits of both cases, and tells the bytes that it spells. There is none where memory
    /// runs out.
    pub fn take_hex(&mut self, alloc: Global) -> Option<Vec<u8>>
        ensures { IfSome result (λ bytes. (s : List ℕ) × (self.old ≡ string s ∷ self.new)
            × (decode_of s ≡ Ok bytes.items)) }
    {
        if !self.before.may_begin() {
            return None;
        }
        let text = self.text.as_bytes();
        let (found, at) = hex_at(alloc, text, self.at)?;
        let (at, before) = ended_value(text, at)?;
        self.at = at;
        self.before = before;
        Some(found)
    }

    // Takes a whole number of any count of digits. A call of its own at the end, so that `take_number` needs no frame.
    #[inline(never)]
    fn take_long_number(&mut self) -> Option<u64>
        ensures { IfSome result (λ n. (n < 2 ^ 64)
            × (self.old ≡ number (decimal n) ∷ self.new)) }
    {
        if !self.before.may_begin() {
            return None;
        }
        let text = self.text.as_bytes();
        let (found, at) = long_number_at(text, self.at)?;
        let (at, before) = ended_value(text, at)?;
        self.at = at;
        self.before = before;
        Some(found)
    }

    /// Takes a whole number from 0 to 2^64 - 1. Compiled once: a copy at each call would leave it fewer registers.
    #[inline(never)]
    pub fn take_number(&mut self) -> Option<u64>
        ensures { IfSome result (λ n. (n < 2 ^ 64)
            × (self.old ≡ number (decimal n) ∷ self.new)) }
    {
        if !self.before.may_begin() {
            return None;
        }
        let text = self.text.as_bytes();
        let Some((found, at)) = number_at(text, self.at) else {
            return self.take_long_number();
        };
        let (at, before) = ended_value(text, at)?;
        self.at = at;
        self.before = before;
        Some(found)
    }

    /// Takes a whole number in the same way, quickly where it has eight digits or more, as counts of minislots have.
    #[inline(never)]
    pub fn take_wide_number(&mut self) -> Option<u64>
        ensures { IfSome result (λ n. (n < 2 ^ 64)
            × (self.old ≡ number (decimal n) ∷ self.new)) }
    {
        if !self.before.may_begin() {
            return None;
        }
        let text = self.text.as_bytes();
        let Some((found, at)) = wide_number_at(text, self.at) else {
            return self.take_long_number();
        };
        let (at, before) = ended_value(text, at)?;
        self.at = at;
        self.before = before;
        Some(found)
    }

    /// Takes whole numbers below 2^32, one or more, and the bracket that closes their array. There are none where
    /// memory runs out.
    pub fn take_u32s(&mut self, alloc: Global) -> Option<Vec<u32>>
        ensures { IfSome result (λ numbers.
            self.old ≡ number_tokens numbers.items ++ end_array ∷ self.new) }
    {
        if !self.before.may_begin() {
            return None;
        }
        let text = self.text.as_bytes();
        let (numbers, at, before) = numbers_at(alloc, text, self.at)?;
        if !before.may_close() || byte_at(text, at) != b']' {
            return None;
        }
        let (at, before) = behind_value(text, at + 1);
        self.at = at;
        self.before = before;
        Some(numbers)
    }

    /// Whether a quote stands next. No clause says so: what is taken after it is right whatever it answers.
    pub fn is_quoted(&self) -> bool {
        byte_at(self.text.as_bytes(), self.at) == b'"'
    }

    /// Whether a brace that opens an object stands next. No clause says so, either.
    pub fn is_braced(&self) -> bool {
        byte_at(self.text.as_bytes(), self.at) == b'{'
    }

    /// The byte behind the next one: where a quote stands next, the first of what is quoted. No clause says so.
    pub fn letter(&self) -> u8 {
        byte_at(self.text.as_bytes(), self.at + 1)
    }

    /// The byte so far behind the next one. No clause says so.
    #[inline(always)]
    pub fn byte_behind(&self, count: u8) -> u8 {
        byte_at(self.text.as_bytes(), self.at + count as usize)
    }

    /// Whether no token is left.
    pub fn is_over(&self) -> bool
        ensures { IsTrue result → self.now ≡ [] }
    {
        self.before.may_close() && self.at == self.text.as_bytes().len()
    }
}
