//! The file of a journal, as far as a journal needs one.

ghost use Rattle.std.specs.Prelude.{◌≡◌, ◌<◌, ◌+◌, ◌^◌, ℕ, Bool, true, List, Option, None, length, take};
ghost use Rattle.std.specs.Prelude.{IfOk, IfErr, OnOk, OnErr};
ghost use Rattle.std.specs.Io.{ReadsAtMost, WritesAtMost};
ghost use Rattle.std.specs.Io.KnownBytes.{append_known};
ghost use Rattle.text_stream.specs.Watched.{TellsFailure};
ghost use Rattle.journal_file.specs.Store.{HasLength, GivesFrom, cut_known};

use crate::change::Seen;
use crate::end::Stop;
use crate::failed::{FailedCall, Operation};
use std::cell::Cell;
use std::fs::{File, metadata};
use std::io;
use std::io::{ErrorKind, Write};
use std::os::unix::fs::FileExt;
use std::rt::Files;

/// A file that is read at any place, grows at its end, and can be cut.
pub trait Store {
    /// The bytes that it has, where they are known.
    ghost contents: { Self → Option (List ℕ) } = { λ _. None };

    /// The bytes that its device has had at the last sync, where they are known: those it has whatever happens.
    ghost reached: { Self → Option (List ℕ) } = { λ _. None };

    /// Whether a call that changes it has failed; true, too, where nothing is known of it.
    ghost has_failed: { Self → Bool } = { λ _. true };

    /// Whether a call that reads such a file may fail.
    ghost may_misread: { Bool } = { true };

    /// How many bytes it has.
    fn size(&self) -> io::Result<u64>
        ensures bytes { IfOk result (HasLength (contents self.now)) }
        ensures failed { IfErr result (λ _. may_misread ≡ true) };

    /// Reads bytes from a place on: how many it gave, none only at the end or where there is no room.
    fn read_from(&self, at: u64, buf: &mut [u8]) -> io::Result<usize>
        ensures bound { ReadsAtMost result buf.new }
        ensures reach { IfOk result (λ n. at + n < 2 ^ 64) }
        ensures bytes { IfOk result (λ n. GivesFrom (contents self.now) at n buf.new) }
        ensures failed { IfErr result (λ _. may_misread ≡ true) };

    /// One write of bytes behind those that it has, of which it takes some: how many.
    fn append_some(&mut self, bytes: &[u8]) -> io::Result<usize>
        ensures bound { WritesAtMost result bytes.now }
        ensures some { IfOk result (λ n. 0 < length bytes.now → 0 < n) }
        ensures ok { IfOk result (λ n.
            contents self.new ≡ append_known (contents self.old) (take n bytes.now)) }
        ensures err { OnErr result (contents self.new ≡ contents self.old) }
        ensures reached { reached self.new ≡ reached self.old }
        ensures failed { TellsFailure result (has_failed self.old) (has_failed self.new) };

    /// Cuts off all bytes behind the first so many.
    fn cut(&mut self, len: u64) -> io::Result<()>
        ensures ok { OnOk result (contents self.new ≡ cut_known (contents self.old) len) }
        ensures err { OnErr result (contents self.new ≡ contents self.old) }
        ensures failed { TellsFailure result (has_failed self.old) (has_failed self.new) };

    /// Waits until all its bytes have reached the device.
    fn sync(&mut self) -> io::Result<()>
        ensures same { contents self.new ≡ contents self.old }
        ensures ok { OnOk result (reached self.new ≡ contents self.new) }
        ensures err { OnErr result (reached self.new ≡ reached self.old) }
        ensures failed { TellsFailure result (has_failed self.old) (has_failed self.new) };
}

/// A file of the system, whose bytes no contract knows. It was opened so that a write goes to its end, and before each
/// write it is looked at: another program may have changed it.
#[derive(Drop)]
pub struct SystemFile<'a, R> {
    rt: &'a R,
    path: &'a str,
    file: File,
    // How it was left.
    left: Seen,
    // What is to be said of the last call that failed.
    stop: Cell<Option<Stop>>,
}

impl<'a, R: Files<File = File>> SystemFile<'a, R> {
    /// A file that was opened by this name, to be read, and to be written at its end.
    pub fn new(rt: &'a R, path: &'a str, file: File) -> io::Result<SystemFile<'a, R>> {
        let left = Seen::of(&file.metadata()?);
        Ok(SystemFile {
            rt,
            path,
            file,
            left,
            stop: Cell::new(None),
        })
    }

    /// What is to be said of the last call that failed.
    pub fn stop(&self) -> Option<Stop> {
        self.stop.get()
    }

    // The outcome of a call of the system. That it failed is known from then on.
    fn noted<T>(&self, operation: Operation, outcome: io::Result<T>) -> io::Result<T>
        ensures { result ≡ outcome }
    {
        if let Err(error) = &outcome {
            let call = FailedCall {
                operation,
                error: *error,
            };
            self.stop.set(Some(Stop::Failed(call)));
        }
        outcome
    }

    // The file to which the name leads; none where it leads to none.
    fn named(&self) -> io::Result<Option<Seen>> {
        match metadata(self.rt, self.path) {
            Ok(found) => Ok(Some(Seen::of(&found))),
            Err(error) => match error.kind() {
                ErrorKind::NotFound | ErrorKind::NotADirectory => Ok(None),
                _ => Err(error),
            },
        }
    }

    // Looks whether the file is as it was left, and its name leads to it.
    fn look(&self) -> io::Result<()> {
        let found = self.noted(Operation::Stat, self.file.metadata())?;
        let named = self.noted(Operation::Stat, self.named())?;
        match self.left.change_to(Seen::of(&found), named) {
            None => Ok(()),
            Some(change) => {
                self.stop.set(Some(Stop::Changed(change)));
                Err(io::Error::other("another program has changed the file"))
            }
        }
    }
}

impl<'a, R: Files<File = File>> Store for SystemFile<'a, R> {
    fn size(&self) -> io::Result<u64> {
        Ok(self.noted(Operation::Stat, self.file.metadata())?.len())
    }

    fn read_from(&self, at: u64, buf: &mut [u8]) -> io::Result<usize> {
        let len = self.noted(Operation::Read, self.file.read_at(buf, at))?;
        if at.checked_add(len as u64).is_none() {
            return self.noted(Operation::Read, Err(ErrorKind::FileTooLarge.into()));
        }
        Ok(len)
    }

    fn append_some(&mut self, bytes: &[u8]) -> io::Result<usize> {
        self.look()?;
        let written = self.file.write(bytes);
        let taken = self.noted(Operation::Write, written)?;
        if taken == 0 && !bytes.is_empty() {
            return self.noted(Operation::Write, Err(ErrorKind::WriteZero.into()));
        }
        self.left.len = self.left.len.saturating_add(taken as u64);
        Ok(taken)
    }

    fn cut(&mut self, len: u64) -> io::Result<()> {
        self.look()?;
        self.noted(Operation::Truncate, self.file.set_len(len))?;
        self.left.len = len;
        Ok(())
    }

    fn sync(&mut self) -> io::Result<()> {
        self.noted(Operation::Sync, self.file.sync_data())
    }
}
