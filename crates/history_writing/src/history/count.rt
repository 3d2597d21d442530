//! Whole numbers and names as members of JSON objects, token by token.

ghost use Rattle.std.specs.Prelude.{◌≡◌, ◌<◌, ◌^◌, ◌++◌, ◌∷◌, length, OnOk};
ghost use Rattle.std.specs.List.{AllByRecursion};
ghost use Rattle.json.specs.Token.{key};
ghost use Rattle.history_writing.specs.Json.{count, counts};
ghost use Rattle.history_writing.specs.Tokens.{tokens_of, counted, numbered, optional_tokens, titled};

use itoa::Buffer;
use json::Writer;
use std::alloc::AllocError;

// Writes a whole number of any length.
#[inline(never)]
fn put_long_number(out: &mut Writer, number: u64) -> Result<(), AllocError>
    ensures ok { OnOk result (out.new.tokens ≡ out.old.tokens ++ tokens_of (count number)) }
    ensures before { out.new.before ≡ out.old.before }
{
    out.u64(number)
}

// Writes a whole number. Most have one digit or two: these are told apart, so that the compiler knows how many it
// writes, and needs no loop and no buffer for them.
#[inline(always)]
fn put_number(out: &mut Writer, number: u64) -> Result<(), AllocError>
    ensures ok { OnOk result (out.new.tokens ≡ out.old.tokens ++ tokens_of (count number)) }
    ensures before { out.new.before ≡ out.old.before }
{
    let mut buffer = Buffer::new();
    if number < 10 {
        out.number(buffer.format(number as u8))
    } else if number < 100 {
        out.number(buffer.format(number as u16))
    } else {
        put_long_number(out, number)
    }
}

/// Writes a whole number under this title. It becomes part of its callers, as does [`put_name`], so that the compiler
/// knows the bytes of a title that stands in the code.
#[inline(always)]
pub fn put_count(out: &mut Writer, title: &str, number: u64) -> Result<(), AllocError>
    ensures ok { OnOk result (out.new.tokens ≡ out.old.tokens ++ numbered title.now number) }
    ensures before { out.new.before ≡ out.old.before }
    ensures fits { number < 2 ^ 64 }
{
    out.key(title)?;
    put_number(out, number)
}

/// Writes a whole number under this title where it is another than the one of a missing member.
pub fn put_optional(
    out: &mut Writer,
    title: &str,
    number: u64,
    missing: u64,
) -> Result<(), AllocError>
    ensures ok { OnOk result
        (out.new.tokens ≡ out.old.tokens ++ optional_tokens missing title.now number) }
    ensures before { out.new.before ≡ out.old.before }
{
    if number == missing {
        return Ok(());
    }
    put_count(out, title, number)
}

/// Writes whole numbers, each under the key at its place.
pub fn put_counts(out: &mut Writer, keys: &[&str], numbers: &[u64]) -> Result<(), AllocError>
    requires { length keys.now ≡ length numbers.now }
    ensures ok { OnOk result (out.new.tokens ≡ out.old.tokens ++ counted keys.now numbers.now) }
    ensures before { out.new.before ≡ out.old.before }
{
    for index in 0..numbers.len() {
        out.key(keys[index])?;
        put_number(out, numbers[index])?;
    }
    Ok(())
}

/// Writes a name under this title.
#[inline(always)]
pub fn put_name(out: &mut Writer, title: &str, name: &str) -> Result<(), AllocError>
    ensures ok { OnOk result (out.new.tokens ≡ out.old.tokens ++ titled title.now name.now) }
    ensures before { out.new.before ≡ out.old.before }
{
    out.key(title)?;
    out.string(name)
}

/// Writes an array of offsets in a frame under this key.
pub fn put_offsets(out: &mut Writer, name: &str, offsets: &[u16]) -> Result<(), AllocError>
    ensures ok { OnOk result (out.new.tokens
        ≡ out.old.tokens ++ key name.now ∷ tokens_of (counts offsets.now)) }
    ensures before { out.new.before ≡ out.old.before }
    ensures fits { AllByRecursion (λ offset. offset < 2 ^ 16) offsets.now }
{
    out.key(name)?;
    out.begin_array()?;
    for offset in offsets {
        put_number(out, u64::from(*offset))?;
    }
    out.end_array()
}

/// Writes an array of counts of bytes under this key.
pub fn put_bytes(out: &mut Writer, name: &str, numbers: &[u32]) -> Result<(), AllocError>
    ensures ok { OnOk result (out.new.tokens
        ≡ out.old.tokens ++ key name.now ∷ tokens_of (counts numbers.now)) }
    ensures before { out.new.before ≡ out.old.before }
    ensures fits { AllByRecursion (λ number. number < 2 ^ 32) numbers.now }
{
    out.key(name)?;
    out.begin_array()?;
    for number in numbers {
        put_number(out, u64::from(*number))?;
    }
    out.end_array()
}
