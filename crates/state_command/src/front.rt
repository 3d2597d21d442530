//! The first line of an input, which is looked at before it is read.

use memchr::memchr;
use std::alloc::Global;
use std::io;
use text_stream::{NEWLINE, Source, TextFault};

// The bytes of one read.
const PIECE: usize = 65_536;

// The most bytes of a first line that are looked at, and of a document.
const MOST: usize = 16_777_216;

/// The first bytes of an input.
#[derive(Drop)]
pub(crate) struct Front {
    pub(crate) bytes: Vec<u8>,
    // How long the first line is, where a newline ends it.
    pub(crate) line: Option<usize>,
}

/// Reads on until a newline has come, or all bytes have, or more than 16777216 of them.
#[inline(never)]
pub(crate) fn read_front<R: Source>(alloc: Global, reader: &mut R) -> Result<Front, TextFault> {
    let mut bytes = Vec::new(alloc);
    let mut piece = [0; PIECE];
    // Each turn but the last reads a byte or more.
    for _ in 0..=MOST {
        if bytes.len() > MOST {
            return Err(TextFault::TooLong);
        }
        let Ok(len) = reader.read_some(&mut piece) else {
            return Err(TextFault::Input);
        };
        if len == 0 {
            return Ok(Front { bytes, line: None });
        }
        let before = bytes.len();
        bytes.extend_from_slice(&piece[..len])?;
        if let Some(at) = memchr(NEWLINE, &piece[..len]) {
            return Ok(Front {
                bytes,
                line: Some(before + at),
            });
        }
    }
    Err(TextFault::TooLong)
}

/// Reads the rest of a document behind its first bytes, where all are not more than 16777216.
#[inline(never)]
pub(crate) fn read_rest<R: Source>(bytes: &mut Vec<u8>, reader: &mut R) -> Result<(), TextFault> {
    let mut piece = [0; PIECE];
    // Each turn but the last reads a byte or more.
    for _ in 0..=MOST {
        if bytes.len() > MOST {
            return Err(TextFault::TooLong);
        }
        let Ok(len) = reader.read_some(&mut piece) else {
            return Err(TextFault::Input);
        };
        if len == 0 {
            return Ok(());
        }
        bytes.extend_from_slice(&piece[..len])?;
    }
    Err(TextFault::TooLong)
}

/// Bytes that were read, and the reader that they came from, of which they are read again.
#[derive(Drop)]
pub(crate) struct Again<'b, 'r, R> {
    pub(crate) front: &'b [u8],
    pub(crate) reader: &'r mut R,
}

impl<'b, 'r, R: Source> Source for Again<'b, 'r, R> {
    fn read_some(&mut self, buf: &mut [u8]) -> io::Result<usize> {
        if self.front.is_empty() {
            return self.reader.read_some(buf);
        }
        self.front.read_some(buf)
    }
}
