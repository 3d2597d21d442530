//! A journal's file as a reader, from its start on.

ghost use Rattle.std.specs.Prelude.{◌&&◌};
ghost use Rattle.journal_file.specs.Store.{rest_at};

use crate::store::Store;
use std::io;
use text_stream::Source;

// A file that is read from a place on, and whether a read has failed.
#[derive(Drop)]
pub(crate) struct Reading<'a, S> {
    store: &'a S,
    at: u64,
    // What contracts see; no code asks for it.
    has_failed: bool,
}

impl<'a, S: Store> Reading<'a, S> {
    ghost use Rattle.std.specs.Prelude.{◌≡◌};
    ghost use Rattle.journal_file.specs.Reading.{left_of};
    ghost use Rattle.journal_file.specs.Store.{rest_at};

    /// A file that is read from its start on.
    pub fn new(store: &'a S) -> Reading<'a, S>
        ensures { left_of S.contents result ≡ rest_at 0 (S.contents store.now) }
    {
        Reading {
            store,
            at: 0,
            has_failed: false,
        }
    }
}

impl<'a, S: Store> Source for Reading<'a, S> {
    ghost remaining = { λ r. rest_at r.at (S.contents r.store.now) };

    // One has failed only where one may.
    ghost has_failed = { λ r. r.has_failed && S.may_misread };

    fn read_some(&mut self, buf: &mut [u8]) -> io::Result<usize> {
        let outcome = self.store.read_from(self.at, buf);
        match &outcome {
            Ok(len) => self.at += *len as u64,
            Err(_) => self.has_failed = true,
        }
        outcome
    }
}
