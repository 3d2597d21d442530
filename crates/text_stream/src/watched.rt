//! Readers and writers that know whether a call of them has failed, so that a contract can name the cause of a fault.

ghost use Rattle.std.specs.Prelude.{◌≡◌, ◌<◌, ℕ, Bool, true, false, List, Option, None, Some, length, IfOk};
ghost use Rattle.std.specs.Io.{ReadsAtMost, WritesAtMost};
ghost use Rattle.std.specs.Io.KnownBytes.{ReadConsumes, WriteAppends};
ghost use Rattle.text_stream.specs.Watched.{TellsFailure};

use arrayvec::ArrayVec;
use std::io;
use std::io::{ErrorKind, Read, Write};

/// What bytes are read from.
pub trait Source {
    /// The bytes that reads will give from here on, where they are known.
    ghost remaining: { Self → Option (List ℕ) } = { λ _. None };

    /// Whether a read has failed; true, too, where nothing is known of it.
    ghost has_failed: { Self → Bool } = { λ _. true };

    /// One read to the front of the buffer: how many bytes it gave, none only at the end or where there is no room.
    fn read_some(&mut self, buf: &mut [u8]) -> io::Result<usize>
        ensures bound { ReadsAtMost result buf.new }
        ensures bytes { ReadConsumes (remaining self.old) (remaining self.new) result buf.new }
        ensures failed { TellsFailure result (has_failed self.old) (has_failed self.new) };
}

/// What bytes are written to.
pub trait Sink {
    /// The bytes that the writer holds, where they are known.
    ghost contents: { Self → Option (List ℕ) } = { λ _. None };

    /// Whether a write has failed; true, too, where nothing is known of it.
    ghost has_failed: { Self → Bool } = { λ _. true };

    /// One write of bytes, of which it takes some: how many. One that takes nothing of them is a failed one.
    fn write_some(&mut self, bytes: &[u8]) -> io::Result<usize>
        ensures bound { WritesAtMost result bytes.now }
        ensures some { IfOk result (λ n. 0 < length bytes.now → 0 < n) }
        ensures bytes { WriteAppends (contents self.old) (contents self.new) result bytes.now }
        ensures failed { TellsFailure result (has_failed self.old) (has_failed self.new) };
}

/// A reader or a writer, with whether a call of it has failed.
#[derive(Drop)]
pub struct Watched<T> {
    inner: T,
    // What contracts see; no code asks for it.
    has_failed: bool,
}

impl<T> Watched<T> {
    ghost use Rattle.text_stream.specs.Watched.{watched_inner, watched_failed};

    /// A reader or a writer of which no call has failed.
    pub fn new(inner: T) -> Watched<T>
        ensures inner { watched_inner result ≡ inner }
        ensures failed { watched_failed result ≡ false }
    {
        Watched {
            inner,
            has_failed: false,
        }
    }
}

impl<R: Read> Source for Watched<R> {
    ghost remaining = { λ r. R.remaining r.inner };

    ghost has_failed = { λ r. r.has_failed };

    fn read_some(&mut self, buf: &mut [u8]) -> io::Result<usize> {
        let outcome = self.inner.read(buf);
        if outcome.is_err() {
            self.has_failed = true;
        }
        outcome
    }
}

impl<W: Write> Sink for Watched<W> {
    ghost contents = { λ w. W.contents w.inner };

    ghost has_failed = { λ w. w.has_failed };

    fn write_some(&mut self, bytes: &[u8]) -> io::Result<usize> {
        let outcome = match self.inner.write(bytes) {
            Ok(n) if n == 0 && !bytes.is_empty() => Err(ErrorKind::WriteZero.into()),
            outcome => outcome,
        };
        if outcome.is_err() {
            self.has_failed = true;
        }
        outcome
    }
}

// A read of bytes at hand never fails.
impl Source for &[u8] {
    ghost remaining = { λ bytes. Some bytes.now };

    ghost has_failed = { λ _. false };

    fn read_some(&mut self, buf: &mut [u8]) -> io::Result<usize> {
        self.read(buf)
    }
}

// A write fails where there is no memory for it, of which nothing is known.
impl Sink for Vec<u8> {
    ghost contents = { λ bytes. Some bytes.items };

    fn write_some(&mut self, bytes: &[u8]) -> io::Result<usize> {
        self.write(bytes)
    }
}

// A write fails where there is no room for it, of which nothing is known.
impl<const CAP: usize> Sink for ArrayVec<u8, CAP> {
    ghost contents = { λ bytes. Some bytes.items };

    fn write_some(&mut self, bytes: &[u8]) -> io::Result<usize> {
        let taken = self.write(bytes)?;
        if taken == 0 && !bytes.is_empty() {
            return Err(ErrorKind::WriteZero.into());
        }
        Ok(taken)
    }
}
