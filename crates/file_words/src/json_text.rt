//! Where a text is no JSON.

use serde_json::Value;
use std::alloc::{AllocError, Global};
use std::fmt::Write;

const NO_UTF8: &str = "these bytes are no UTF-8";

// The line and the column of the byte behind so many, counted from 1.
fn place_of(bytes: &[u8], before: usize) -> (u64, u64) {
    let (mut line, mut column) = (1u64, 1u64);
    for byte in bytes.iter().take(before) {
        if *byte == b'\n' {
            line = line.saturating_add(1);
            column = 1;
        } else {
            column = column.saturating_add(1);
        }
    }
    (line, column)
}

// How many bytes there are up to this column of this line, both counted from 1.
fn length_to(bytes: &[u8], line: u64, column: u64) -> usize {
    let (mut lines, mut columns, mut length) = (1u64, 0u64, 0usize);
    for (place, byte) in bytes.iter().enumerate() {
        if lines > line || (lines == line && columns >= column) {
            break;
        }
        if *byte == b'\n' {
            lines = lines.saturating_add(1);
            columns = 0;
        } else {
            columns = columns.saturating_add(1);
        }
        length = place + 1;
    }
    length
}

// Where the last byte of so many stands that is no white space of JSON.
fn last_index(bytes: &[u8], length: usize) -> Option<usize> {
    let mut last = None;
    for (index, byte) in bytes.iter().take(length).enumerate() {
        if !matches!(*byte, b' ' | b'\t' | b'\n' | b'\r') {
            last = Some(index);
        }
    }
    last
}

// Whether a value can end with this byte.
fn ends_value(byte: u8) -> bool {
    matches!(byte, b'"' | b'}' | b']') || byte.is_ascii_alphanumeric()
}

// Whether a value can begin with this byte.
fn starts_value(byte: u8) -> bool {
    matches!(byte, b'"' | b'{' | b'[' | b'-') || byte.is_ascii_alphanumeric()
}

// Whether these bytes are a whole document.
fn is_document(alloc: Global, bytes: &[u8]) -> Result<bool, AllocError> {
    let Ok(text) = str::from_utf8(bytes) else {
        return Ok(false);
    };
    match Value::from_str(alloc, text) {
        Ok(_) => Ok(true),
        Err(fault) if fault.is_memory() => Err(AllocError),
        Err(_) => Ok(false),
    }
}

// What is wrong with a byte at which the reader stopped, and the bytes before it.
fn what_is_wrong(alloc: Global, before: &[u8], byte: u8) -> Result<&'static str, AllocError> {
    let last = last_index(before, before.len()).and_then(|index| before.get(index).copied());
    if is_document(alloc, before)? {
        return Ok("the document has ended before this");
    }
    let is_glued = before.last().is_some_and(|end| end.is_ascii_alphanumeric())
        && byte.is_ascii_alphanumeric();
    if is_glued {
        return Ok("this is no JSON");
    }
    Ok(match (last, byte) {
        (_, b'\'') => "a text stands in double quotes",
        (_, b'/' | b'#') => "JSON has no comments",
        (Some(b','), b']' | b'}') => "a comma stands before this bracket",
        (Some(b'{'), _) if byte != b'"' => "a key in double quotes belongs here",
        (Some(end), _) if ends_value(end) && starts_value(byte) => {
            "a comma or a colon is missing before this"
        }
        _ => "this is no JSON",
    })
}

// What is wrong with a text of which the reader has read so many bytes.
fn tell_stop(
    alloc: Global,
    words: &mut String,
    bytes: &[u8],
    length: usize,
) -> Result<(), AllocError> {
    // The reader may stand behind white space that follows.
    let index = last_index(bytes, length).unwrap_or(0);
    let (line, column) = place_of(bytes, index);
    let (before, byte) = match (bytes.get(..index), bytes.get(index)) {
        (Some(before), Some(byte)) => (before, *byte),
        _ => (bytes, b' '),
    };
    let what = if bytes.starts_with(b"\xef\xbb\xbf") && index < 3 {
        "a byte order mark stands here, which JSON does not have"
    } else {
        what_is_wrong(alloc, before, byte)?
    };
    writeln!(words, "line {line}, column {column}: {what}")
}

// What is wrong, behind the line and the column of this byte.
fn tell_at(words: &mut String, bytes: &[u8], index: usize, what: &str) -> Result<(), AllocError> {
    let (line, column) = place_of(bytes, index);
    writeln!(words, "line {line}, column {column}: {what}")
}

/// The line and the column at which bytes are no UTF-8, or else no JSON.
pub fn tell_text(alloc: Global, words: &mut String, bytes: &[u8]) -> Result<(), AllocError> {
    let Some(last) = last_index(bytes, bytes.len()) else {
        return writeln!(words, "the text is empty");
    };
    let text = match str::from_utf8(bytes) {
        Ok(text) => text,
        Err(fault) => return tell_at(words, bytes, fault.valid_up_to(), NO_UTF8),
    };
    match Value::from_str(alloc, text) {
        Ok(_) => Ok(()),
        Err(fault) if fault.is_memory() => Err(AllocError),
        Err(fault) if fault.is_eof() => tell_at(words, bytes, last, "the text ends too early"),
        Err(fault) => {
            let length = length_to(bytes, fault.line() as u64, fault.column() as u64);
            tell_stop(alloc, words, bytes, length)
        }
    }
}
