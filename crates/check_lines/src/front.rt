//! A reader whose first bytes can be looked at before they are read.

ghost use Rattle.std.specs.Prelude.{◌≡◌, ◌⊎◌, ◌≤◌, IfErr, OnOk, take, vec_len};
ghost use Rattle.std.specs.Io.{ReadsAtMost};
ghost use Rattle.std.specs.Io.KnownBytes.{Keeps, ReadConsumes};
ghost use Rattle.text_stream.specs.Watched.{FailsBy, TellsFailure};
ghost use Rattle.check_lines.specs.declared.front.TheConstants.{FRONT};

use std::alloc::Global;
use std::io;
use text_stream::{Source, TextFault};

/// The most bytes that are looked at: two lines that are not long, with their newlines, and as much white space.
pub(crate) const FRONT: usize = 196_608;

/// The bytes of one read.
const PIECE: usize = 65_536;

/// A reader, and bytes of it that were read and are given again.
#[derive(Drop)]
pub struct Front<R> {
    reader: R,
    bytes: Vec<u8>,
    // How many of them were given.
    given: usize,
    // Whether the reader has told its end. It is not asked again: at a terminal it would read on.
    has_ended: bool,
    ghost given_within: { given ≤ vec_len bytes },
}

impl<R: Source> Front<R> {
    ghost use Rattle.check_lines.specs.Front.{unread_of, behind_of, failed_of, at_hand, IsLookedAt};

    /// A reader of which nothing was looked at.
    pub fn new(alloc: Global, reader: R) -> Front<R>
        ensures unread { unread_of R.remaining result ≡ R.remaining reader }
        ensures failed { failed_of R.has_failed result ≡ R.has_failed reader }
    {
        Front {
            reader,
            bytes: Vec::new(alloc),
            given: 0,
            has_ended: false,
        }
    }

    /// Reads on until 196608 bytes are at hand, or all where there are fewer; they are given again.
    #[inline(never)]
    pub(crate) fn look(&mut self) -> Result<(), TextFault>
        ensures same { OnOk result
            (Keeps (unread_of R.remaining self.old) (unread_of R.remaining self.new)) }
        ensures looked { OnOk result (IsLookedAt R.remaining self.new) }
        ensures err { IfErr result (λ e. (e ≡ TextFault.Input) ⊎ (e ≡ TextFault.Memory)) }
        ensures failed { FailsBy TextFault.Input result
            (failed_of R.has_failed self.old) (failed_of R.has_failed self.new) }
    {
        if self.has_ended {
            return Ok(());
        }
        let mut piece = [0; PIECE];
        while self.bytes.len() - self.given < FRONT {
            let Ok(len) = self.reader.read_some(&mut piece) else {
                return Err(TextFault::Input);
            };
            if len == 0 {
                self.has_ended = true;
                return Ok(());
            }
            self.bytes.extend_from_slice(&piece[..len])?;
        }
        Ok(())
    }

    /// The first of the bytes at hand: as many as are looked at.
    pub(crate) fn first(&self) -> &[u8]
        ensures { result.now ≡ take FRONT (at_hand self.now) }
    {
        let left = &self.bytes[self.given..];
        &left[..left.len().min(FRONT)]
    }

    // Reads on behind the bytes that were looked at, unless they are all.
    fn read_behind(&mut self, buf: &mut [u8]) -> io::Result<usize>
        ensures same { at_hand self.new ≡ at_hand self.old }
        ensures bound { ReadsAtMost result buf.new }
        ensures bytes { ReadConsumes (behind_of R.remaining self.old) (behind_of R.remaining self.new)
            result buf.new }
        ensures failed { TellsFailure result
            (failed_of R.has_failed self.old) (failed_of R.has_failed self.new) }
    {
        if self.has_ended {
            return Ok(0);
        }
        self.reader.read_some(buf)
    }

    /// The bytes that were looked at, given or not.
    pub(crate) fn looked_at(&self) -> &[u8] {
        &self.bytes
    }
}

impl<R: Source> Source for Front<R> {
    ghost use Rattle.check_lines.specs.Front.{unread_of, failed_of};

    ghost remaining = { λ f. unread_of R.remaining f };

    ghost has_failed = { λ f. failed_of R.has_failed f };

    fn read_some(&mut self, buf: &mut [u8]) -> io::Result<usize> {
        if self.given == self.bytes.len() {
            return self.read_behind(buf);
        }
        let mut left = &self.bytes[self.given..];
        match left.read_some(buf) {
            Ok(len) => {
                self.given += len;
                Ok(len)
            }
            Err(fault) => Err(fault),
        }
    }
}
