//! What is said of one line of a file that is read by lines.

use super::config::tell_field;
use super::json_text::tell_text;
use super::notes::Notes;
use super::place::Place;
use super::written::{find, parts};
use json_fields::forms::Sort;
use serde_json::Value;
use std::alloc::{AllocError, Global};
use std::fmt::Write;
use text_stream::{TextFault, parse};

/// How deep objects stand in an object: a burst descriptor in the configuration of a script that has one line.
const DEPTH: usize = 3;

/// How the place of a fault begins in a text of one line.
const FIRST: &str = "line 1, ";

// What is wrong with a line of this number that is no JSON text.
fn words_on_no_json(alloc: Global, number: u64, line: &[u8]) -> Result<String, AllocError> {
    let (mut words, mut place) = (String::new(alloc), String::new(alloc));
    tell_text(alloc, &mut place, line)?;
    match place.as_str().strip_prefix(FIRST) {
        Some(behind) => write!(words, "line {number}, {behind}")?,
        None => write!(words, "line {number}: {place}")?,
    }
    Ok(words)
}

impl Notes {
    // What is wrong with the value of a line, and the keys in it that nobody reads.
    fn tell_line(&mut self, place: Place, sort: Sort, line: &[u8]) -> Result<(), AllocError> {
        let Some(parts) = self.object(place, line)? else {
            return Ok(());
        };
        if matches!(sort, Sort::Call) && find(self.alloc, &parts, "config")?.0.is_some() {
            writeln!(self.here, "{place}: a call has no member \"config\"")?;
        }
        self.tell_object(place, sort, &parts, DEPTH)
    }

    // All that is said of a line.
    fn words_on_line(&self) -> Result<String, AllocError> {
        let mut words = String::new(self.alloc);
        words.push_str(&self.here)?;
        self.repeated.put(&mut words, "that stand more than once")?;
        self.unread.put(&mut words, "that nobody reads")?;
        Ok(words)
    }
}

/// What is wrong with the line of this number, counted from 1, where an object of a sort belongs, and what it has that
/// is not read.
pub fn words_on_line(
    alloc: Global,
    number: u64,
    sort: Sort,
    line: &[u8],
) -> Result<String, AllocError> {
    match parse(alloc, line) {
        Ok(_) => {}
        Err(TextFault::Memory) => return Err(AllocError),
        Err(_) => return words_on_no_json(alloc, number, line),
    }
    let mut notes = Notes::new(alloc);
    notes.tell_line(Place::item("line", number), sort, line.trim_ascii())?;
    notes.words_on_line()
}

// What is wrong with the configuration of an opening.
fn tell_config(notes: &mut Notes, place: Place, line: &[u8]) -> Result<(), AllocError> {
    let opening = parts(notes.alloc, line.trim_ascii())?;
    if let Some(written) = find(notes.alloc, &opening, "config")?.0 {
        notes.tell_line(place, Sort::Config, written)?;
    }
    Ok(())
}

/// What is wrong with the configuration in the line of this number, counted from 1.
pub fn words_on_opening(
    alloc: Global,
    number: u64,
    line: &[u8],
    document: &Value,
    field: Option<TextFault>,
) -> Result<String, AllocError> {
    let mut notes = Notes::new(alloc);
    tell_config(
        &mut notes,
        Place::item("line", number).under("config"),
        line,
    )?;
    let mut words = notes.words_on_line()?;
    if let Some(TextFault::Config(field)) = field {
        write!(words, "line {number}, ")?;
        tell_field(&mut words, document, field)?;
    }
    Ok(words)
}
