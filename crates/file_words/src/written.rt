//! Values of JSON as they are written, in a text that is known to be JSON.

use serde_json::Value;
use std::alloc::{AllocError, Global};

/// The longest value that is shown as it is written, in bytes.
const LONGEST: usize = 40;

/// A value in an object or an array, and its key as it is written, which is empty in an array.
#[derive(Clone, Copy)]
pub struct Part<'t> {
    /// The key with its quotation marks, or nothing.
    pub key: &'t [u8],
    /// The value, as it is written.
    pub value: &'t [u8],
}

// How far a reader of a text is in what encloses other values.
#[derive(Drop)]
struct Depth {
    brackets: u64,
    is_text: bool,
    is_escaped: bool,
}

impl Depth {
    // Whether the next byte divides the parts of the outermost object or array.
    fn divides(&mut self, byte: u8) -> bool {
        if self.is_text {
            self.is_text = byte != b'"' || self.is_escaped;
            self.is_escaped = byte == b'\\' && !self.is_escaped;
            return false;
        }
        let before = self.brackets;
        match byte {
            b'"' => self.is_text = true,
            b'{' | b'[' => self.brackets = before.saturating_add(1),
            b'}' | b']' => self.brackets = before.saturating_sub(1),
            _ => {}
        }
        match byte {
            b'{' | b'[' => before == 0,
            b'}' | b']' | b',' | b':' => before == 1,
            _ => false,
        }
    }
}

/// The parts of an object or an array, in their order. Another value has none.
pub fn parts<'t>(alloc: Global, text: &'t [u8]) -> Result<Vec<Part<'t>>, AllocError> {
    let mut depth = Depth {
        brackets: 0,
        is_text: false,
        is_escaped: false,
    };
    let mut found = Vec::new(alloc);
    let (mut key, mut start): (&'t [u8], usize) = (b"", 0);
    for (index, byte) in text.iter().enumerate() {
        if depth.divides(*byte) {
            let piece = piece_of(text, start, index);
            start = index + 1;
            if *byte == b':' {
                key = piece;
            } else if !piece.is_empty() {
                found.push(Part { key, value: piece })?;
            }
        }
    }
    Ok(found)
}

// The bytes from one place to another, without white space around them.
fn piece_of<'t>(text: &'t [u8], from: usize, to: usize) -> &'t [u8] {
    match text.get(from..to) {
        Some(piece) => piece.trim_ascii(),
        None => b"",
    }
}

/// The text that a value is, where it is one.
pub fn text_of(alloc: Global, written: &[u8]) -> Result<Option<String>, AllocError> {
    let Ok(text) = str::from_utf8(written) else {
        return Ok(None);
    };
    if !text.starts_with('"') {
        return Ok(None);
    }
    let value = match Value::from_str(alloc, text) {
        Ok(value) => value,
        Err(fault) if fault.is_memory() => return Err(AllocError),
        Err(_) => return Ok(None),
    };
    match value.as_str() {
        Some(found) => Ok(Some(String::from_str(alloc, found)?)),
        None => Ok(None),
    }
}

/// Whether a key that is written so is this one.
pub fn is_key(alloc: Global, written: &[u8], key: &str) -> Result<bool, AllocError> {
    if written.contains(&b'\\') {
        return Ok(match text_of(alloc, written)? {
            Some(text) => text.as_str() == key,
            None => false,
        });
    }
    let end = written.len().saturating_sub(1);
    Ok(match written.get(1..end) {
        Some(inner) => inner == key.as_bytes(),
        None => false,
    })
}

/// The value that is read under a key, the last one, and how many there are.
pub fn find<'t>(
    alloc: Global,
    parts: &[Part<'t>],
    key: &str,
) -> Result<(Option<&'t [u8]>, u64), AllocError> {
    let (mut last, mut count) = (None, 0u64);
    for part in parts {
        if is_key(alloc, part.key, key)? {
            last = Some(part.value);
            count = count.saturating_add(1);
        }
    }
    Ok((last, count))
}

/// The whole number that a value is, where it is one that fits 64 bits.
pub fn whole(written: &[u8]) -> Option<u64> {
    str::from_utf8(written).ok()?.parse::<u64>().ok()
}

/// Whether a value is an object, by its first byte `{`, or an array, by `[`, or a text, by `"`.
pub fn begins(written: &[u8], first: u8) -> bool {
    written.first() == Some(&first)
}

/// A value as it is written, or what it is where that is long.
pub fn shown<'t>(written: &'t [u8]) -> &'t str {
    match (written.first(), str::from_utf8(written)) {
        (Some(b'{'), _) => "an object",
        (Some(b'['), _) => "an array",
        (_, Ok(text)) if text.len() <= LONGEST => text,
        (Some(b'"'), _) => "a long text",
        _ => "a long number",
    }
}
