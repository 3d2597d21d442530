//! Tokens that are known together, and numbers of few digits.

ghost use Rattle.std.specs.Prelude.{◌≡◌, ◌^◌, ◌<◌, ◌≤◌, ◌∷◌, ◌++◌, List, ℕ, true, IfSome, decimal, length, drop};
ghost use Rattle.json.specs.Lex.{between, lex, after_value, punctuate};
ghost use Rattle.std.specs.Bool.{MatchBool};
ghost use Rattle.json.specs.Print.{escape};
ghost use Rattle.json.specs.Token.{key, string, number};
ghost use Rattle.byte_tokens.specs.declared.between.Before.{Before};
ghost use Rattle.byte_tokens.specs.Left.{tokens_from, begins_at, EndsValue};
ghost use Rattle.byte_tokens.specs.Spelled.{spelled_run};

use super::Quick;
use crate::between::{Before, ended_value};
use crate::blocks::long_word_at;
use crate::short_numbers::short_number_at;

impl<'a> Quick<'a> {
    /// Takes a key, the text under it and the key behind that, which are spelled so with nothing between them, if they
    /// are next. Where the spelling is known when it is compiled, and has 16 to 32 bytes, this costs two comparisons.
    #[inline(always)]
    pub fn take_spelled_run(&mut self, spelled: &str) -> bool
        ensures { MatchBool result ((name content next : List ℕ) → escape name ≡ name → escape content ≡ content
            → escape next ≡ next → spelled.now ≡ spelled_run name content next
            → self.old ≡ key name ∷ string content ∷ key next ∷ self.new)
            (self.new ≡ self.old) }
    {
        let text = self.text.as_bytes();
        if !self.before.may_begin() || !long_word_at(text, self.at, spelled.as_bytes()) {
            return false;
        }
        self.at += spelled.len();
        self.before = Before::Opening;
        true
    }

    /// Takes a whole number, in fewest steps where it has one to five digits and more of the text stands behind it, as
    /// SIDs and receivers have: put where it is called.
    #[inline(always)]
    pub fn take_short_number(&mut self) -> Option<u64>
        ensures { IfSome result (λ n. (n < 2 ^ 64)
            × (self.old ≡ number (decimal n) ∷ self.new)) }
    {
        let text = self.text.as_bytes();
        if !self.before.may_begin() || text.len() - self.at < 6 {
            return self.take_number();
        }
        let Some((found, at)) = short_number_at(text, self.at) else {
            return self.take_number();
        };
        let (at, before) = ended_value(text, at)?;
        self.at = at;
        self.before = before;
        Some(found)
    }
}
