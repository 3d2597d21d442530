//! What is wrong with a value and with a name.

use super::place::Place;
use super::written::{begins, parts, shown, text_of, whole};
use hex::FromHexError;
use json_fields::forms::Holds;
use map_codec::{DecodeFault, decode};
use std::alloc::{AllocError, Global};
use std::fmt::Write;

// Whether a text is the payload of a MAP in hexadecimal.
fn is_payload(alloc: Global, text: &str) -> Result<bool, AllocError> {
    let bytes = match hex::decode(alloc, text) {
        Ok(bytes) => bytes,
        Err(FromHexError::OutOfMemory) => return Err(AllocError),
        Err(_) => return Ok(false),
    };
    match decode(alloc, &bytes) {
        Ok(_) => Ok(true),
        Err(DecodeFault::Memory) => Err(AllocError),
        Err(_) => Ok(false),
    }
}

// Whether a value is a whole number that is not above this.
fn is_at_most(written: &[u8], most: u64) -> bool {
    match whole(written) {
        Some(number) => number <= most,
        None => false,
    }
}

// Whether a value is an array of such numbers.
fn are_at_most(alloc: Global, written: &[u8], most: u64) -> Result<bool, AllocError> {
    if !begins(written, b'[') {
        return Ok(false);
    }
    let numbers = parts(alloc, written)?;
    for number in &numbers {
        if !is_at_most(number.value, most) {
            return Ok(false);
        }
    }
    Ok(true)
}

/// Whether a value is what must stand there.
pub fn is_met(alloc: Global, holds: Holds, written: &[u8]) -> Result<bool, AllocError> {
    Ok(match holds {
        Holds::Number(most) | Holds::Lawful(most, _, _) => is_at_most(written, most),
        Holds::Numbers(most) => are_at_most(alloc, written, most)?,
        Holds::Payload => match text_of(alloc, written)? {
            Some(text) => is_payload(alloc, &text)?,
            None => false,
        },
        Holds::Name => begins(written, b'"'),
        Holds::Object(_) => begins(written, b'{'),
        Holds::Objects | Holds::Lists(_) => begins(written, b'['),
    })
}

// That a value is no whole number that is not above this.
fn tell_number(words: &mut String, most: u64, written: &[u8]) -> Result<(), AllocError> {
    match whole(written) {
        Some(_) => writeln!(words, "at most {most}"),
        None => writeln!(words, "and not a whole number from 0 to {most}"),
    }
}

/// That a value is not what must stand there.
pub fn tell_value(
    words: &mut String,
    place: Place,
    key: &str,
    holds: Holds,
    written: &[u8],
) -> Result<(), AllocError> {
    let found = shown(written);
    write!(words, "{place}: \"{key}\" is {found}, ")?;
    match holds {
        Holds::Number(most) | Holds::Lawful(most, _, _) => tell_number(words, most, written),
        Holds::Numbers(most) => writeln!(
            words,
            "and not an array of whole numbers from 0 to {most}"
        ),
        Holds::Payload => words.push_str("and not the payload of a MAP in hexadecimal\n"),
        Holds::Name => words.push_str("and not a text\n"),
        Holds::Object(_) => words.push_str("and not an object\n"),
        Holds::Objects | Holds::Lists(_) => words.push_str("and not an array\n"),
    }
}

/// That a key or a name is none of the known ones: which of them is near, or else these.
pub fn tell_near(
    words: &mut String,
    near: Option<&'static str>,
    known: &[&'static str],
) -> Result<(), AllocError> {
    if let Some(near) = near {
        return writeln!(words, "; did you mean \"{near}\"?");
    }
    if !known.is_empty() {
        words.push_str(", and not one of")?;
    }
    for name in known {
        write!(words, " {name}")?;
    }
    words.push_str("\n")
}
