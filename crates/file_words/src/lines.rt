//! Lines on what is alike.

use std::alloc::{AllocError, Global};
use std::fmt::Write;

/// How many are told.
const MOST: u64 = 20;

/// Lines on what is alike, and how many there would be.
#[derive(Drop)]
pub struct Lines {
    /// The lines, each ended by a newline.
    pub words: String,
    count: u64,
}

impl Lines {
    /// None so far.
    pub fn new(alloc: Global) -> Lines {
        Lines {
            words: String::new(alloc),
            count: 0,
        }
    }

    /// One more, and whether it is told.
    pub fn takes_one(&mut self) -> bool {
        self.count = self.count.saturating_add(1);
        self.count <= MOST
    }

    /// Writes the lines, and how many more there are, of which this is said.
    pub fn put(&self, words: &mut String, what: &str) -> Result<(), AllocError> {
        words.push_str(&self.words)?;
        let more = self.count.saturating_sub(MOST);
        if more == 0 {
            return Ok(());
        }
        writeln!(words, "and {more} more {what}")
    }
}
