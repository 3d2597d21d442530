//! Texts that are read and written: readers and writers that know whether a call has failed, all bytes of an input,
//! its lines one by one, text that waits to be written, the faults of a text, and why a command of the program ends.
//! Lines are read piece by piece into a buffer of fixed size. A line is the bytes up to a newline, which is not
//! counted; bytes behind the last newline are a line too.
#![tactic(auto)]

mod buffer;
mod fault;
mod input;
mod lines;
mod output;
mod piece;
mod run_fault;
mod waiting;
mod watched;

pub use buffer::TextBuffer;
pub use fault::{TextFault, field_number};
pub use input::{parse, read_all};
pub use lines::Lines;
pub use output::put;
pub use run_fault::RunFault;
pub use watched::{Sink, Source, Watched};

/// The byte that ends a line.
pub const NEWLINE: u8 = 10;

/// The most bytes of a line that is not long.
pub const MAX_LINE: usize = 65_536;

/// What is told of a line.
#[derive(Clone, Copy, Debug, PartialEq, Eq)]
pub enum Told {
    /// The line has at most 65536 bytes, and they are shown.
    Line,
    /// The line has more bytes, all of which were passed.
    Long,
}

/// What comes next of lines that a newline ends.
#[derive(Clone, Copy, Debug, PartialEq, Eq)]
pub enum Whole {
    /// A line of at most 65536 bytes, which are shown.
    Line,
    /// A line of more bytes, all of which were passed.
    Long,
    /// The end: behind the last newline stand so many bytes, of which nothing is shown. The number stops at `u64::MAX`.
    Torn(u64),
}
