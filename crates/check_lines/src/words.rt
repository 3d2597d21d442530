//! Words on a line that is wrong. They have no contract: which line is wrong, and how, is found before them.

use file_words::{words_on_line, words_on_opening};
use json_fields::config_in;
use json_fields::forms::{Kind, Sort};
use live_command::{LineFault, is_spoken};
use serde_json::Value;
use std::alloc::{AllocError, Global};
use std::fmt::Write;
use text_stream::{Lines, TextFault, Whole, parse};

/// What is said of a long line.
const LONG: &str = "this line has more than 65536 bytes";

// The words on a line of this number, counted from 1.
fn told(alloc: Global, number: u64, what: &str) -> Result<String, AllocError> {
    let mut words = String::new(alloc);
    writeln!(words, "line {number}: {what}")?;
    Ok(words)
}

/// The words on a line of this number, counted from 1, that is answered `bad line`.
pub(crate) fn words_on_bad_line(
    alloc: Global,
    number: u64,
    fault: LineFault,
    shown: &[u8],
) -> Result<String, AllocError> {
    match fault {
        LineFault::Long => told(alloc, number, LONG),
        LineFault::Json | LineFault::Shape => words_on_line(alloc, number, Sort::Call, shown),
    }
}

// The field of an opening's configuration that has no lawful value.
fn wrong_field(opening: &Value) -> Option<TextFault> {
    match config_in(opening)?.check() {
        Ok(_) => None,
        Err(field) => Some(TextFault::Config(field)),
    }
}

/// The words on a line of this number, counted from 1, that is no lawful configuration.
pub(crate) fn words_on_config(
    alloc: Global,
    number: u64,
    line: &[u8],
) -> Result<String, AllocError> {
    match parse(alloc, line) {
        Ok(value) => words_on_opening(alloc, number, line, &value, wrong_field(&value)),
        Err(TextFault::Memory) => Err(AllocError),
        Err(_) => words_on_line(alloc, number, Sort::Document(Kind::Script), line),
    }
}

/// The words on a configuration that is long, in the line of this number, counted from 1.
pub(crate) fn words_on_long_config(alloc: Global, number: u64) -> Result<String, AllocError> {
    told(alloc, number, LONG)
}

/// The words on a line of a journal that stands for no entry: its number, counted from 0, and its bytes where it is not
/// long.
pub(crate) fn words_on_no_entry(
    alloc: Global,
    line: u64,
    shown: Option<&[u8]>,
) -> Result<String, AllocError> {
    let number = line.saturating_add(1);
    match shown {
        None => told(alloc, number, LONG),
        Some(text) if is_spoken(text) => words_on_line(alloc, number, Sort::Entry, text),
        Some(_) => told(
            alloc,
            number,
            "this line is blank, and a journal has no such line",
        ),
    }
}

/// The words on an entry of a journal, counted from 0, that may not follow those before it.
pub(crate) fn words_on_illegal(alloc: Global, place: u64) -> Result<String, AllocError> {
    told(
        alloc,
        place.saturating_add(2),
        "the scheduler may not give this reply to this call after the lines before it",
    )
}

/// The words on a journal whose first bytes begin with no lawful configuration.
pub(crate) fn words_on_front(alloc: Global, front: &[u8]) -> Result<String, AllocError> {
    let (mut lines, mut reader) = (Lines::new(alloc)?, front);
    match lines.next_whole(&mut reader) {
        Ok(Whole::Line) if !is_spoken(lines.line()) => words_on_no_entry(alloc, 0, Some(b"")),
        Ok(Whole::Line) => words_on_config(alloc, 1, lines.line()),
        Ok(Whole::Long) => told(alloc, 1, LONG),
        _ => told(alloc, 1, "no newline ends this line"),
    }
}
