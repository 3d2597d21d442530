//! What stands between the tokens of a text: commas, and white space.

ghost use Rattle.std.specs.Prelude.{◌≡◌, ◌≤◌, ◌<◌, IsTrue, IfSome, length, drop};
ghost use Rattle.json.specs.Lex.{between, lex, after_value, punctuate};
ghost use Rattle.byte_tokens.specs.Left.{tokens_from, begins_at, closes_at, IsSpace, EndsValue};

use crate::spelled::byte_at;

// What stands before the place of a reader.
#[derive(Clone, Copy)]
pub(crate) enum Before {
    // An opening bracket, a key, or nothing.
    Opening,
    // A value.
    Value,
    // A comma.
    Comma,
}

impl Before {
    pub(crate) fn may_begin(self) -> bool
        ensures { result ≡ begins_at self }
    {
        match self {
            Before::Opening => true,
            Before::Value => false,
            Before::Comma => true,
        }
    }

    pub(crate) fn may_close(self) -> bool
        ensures { result ≡ closes_at self }
    {
        match self {
            Before::Opening => true,
            Before::Value => true,
            Before::Comma => false,
        }
    }
}

// Whether a byte is white space.
fn is_space(c: u8) -> bool
    ensures { IsTrue result → IsSpace c }
{
    c == b' ' || c == b'\t' || c == b'\n' || c == b'\r'
}

// The place behind white space of any length. Compiled apart, since most tokens have none.
#[inline(never)]
fn behind_spaces(text: &[u8], from: usize) -> usize
    requires { from ≤ length text.now }
    ensures same { lex between (drop result text.now) ≡ lex between (drop from text.now) }
    ensures within { (from ≤ result) × (result ≤ length text.now) }
{
    let mut at = from;
    'spaces: while at < text.len() && is_space(text[at]) {
        at += 1;
    }
    at
}

// The place behind white space, where some stands: quickly, where there is none.
#[inline(always)]
pub(crate) fn behind_gap(text: &[u8], at: usize) -> usize
    requires { at ≤ length text.now }
    ensures same { lex between (drop result text.now) ≡ lex between (drop at text.now) }
    ensures within { (at ≤ result) × (result ≤ length text.now) }
{
    if byte_at(text, at) > b' ' {
        return at;
    }
    behind_spaces(text, at)
}

// The same, quickly also where it is one space.
#[inline(always)]
pub(crate) fn behind_space(text: &[u8], at: usize) -> usize
    requires { at ≤ length text.now }
    ensures same { lex between (drop result text.now) ≡ lex between (drop at text.now) }
    ensures within { (at ≤ result) × (result ≤ length text.now) }
{
    let first = byte_at(text, at);
    if first > b' ' {
        return at;
    }
    if first == b' ' && byte_at(text, at + 1) > b' ' {
        return at + 1;
    }
    behind_spaces(text, at)
}

// The place behind a value, the comma that may follow it, and the white space around that.
#[inline(always)]
pub(crate) fn behind_value(text: &[u8], at: usize) -> (usize, Before)
    requires { at ≤ length text.now }
    ensures same { tokens_from result.1 (drop result.0 text.now)
        ≡ punctuate after_value (lex between (drop at text.now)) }
    ensures within { result.0 ≤ length text.now }
{
    let end = behind_gap(text, at);
    if byte_at(text, end) == b',' {
        (behind_space(text, end + 1), Before::Comma)
    } else {
        (end, Before::Value)
    }
}

// The place behind a value, where a comma or a closing bracket stands next.
#[inline(always)]
fn ended_here(text: &[u8], at: usize) -> Option<(usize, Before)>
    requires { at ≤ length text.now }
    ensures ends { IfSome result (λ r. EndsValue (drop at text.now)) }
    ensures same { IfSome result (λ r. tokens_from r.1 (drop r.0 text.now)
        ≡ punctuate after_value (lex between (drop at text.now))) }
    ensures within { IfSome result (λ r. (at ≤ r.0) × (r.0 ≤ length text.now)) }
{
    let next = byte_at(text, at);
    if next == b',' {
        return Some((behind_space(text, at + 1), Before::Comma));
    }
    if next != b'}' && next != b']' {
        return None;
    }
    Some((at, Before::Value))
}

// The same, where white space stands next.
#[inline(never)]
fn ended_behind(text: &[u8], at: usize) -> Option<(usize, Before)>
    requires { at ≤ length text.now }
    ensures ends { IfSome result (λ r. EndsValue (drop at text.now)) }
    ensures same { IfSome result (λ r. tokens_from r.1 (drop r.0 text.now)
        ≡ punctuate after_value (lex between (drop at text.now))) }
    ensures within { IfSome result (λ r. (at ≤ r.0) × (r.0 ≤ length text.now)) }
{
    if !is_space(byte_at(text, at)) {
        return None;
    }
    ended_here(text, behind_spaces(text, at))
}

// The place behind a value, where what stands there ends it.
#[inline(always)]
pub(crate) fn ended_value(text: &[u8], at: usize) -> Option<(usize, Before)>
    requires { at ≤ length text.now }
    ensures ends { IfSome result (λ r. EndsValue (drop at text.now)) }
    ensures same { IfSome result (λ r. tokens_from r.1 (drop r.0 text.now)
        ≡ punctuate after_value (lex between (drop at text.now))) }
    ensures within { IfSome result (λ r. (at ≤ r.0) × (r.0 ≤ length text.now)) }
{
    if let Some(ended) = ended_here(text, at) {
        return Some(ended);
    }
    ended_behind(text, at)
}
