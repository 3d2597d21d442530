//! What a command reads: standard input, or the file that its word names.

ghost use Rattle.std.specs.Prelude.{◌≡◌, [], take, IfOk};
ghost use Rattle.std.specs.Io.{ReadsAtMost};
ghost use Rattle.std.specs.Io.KnownBytes.{ReadConsumes};
ghost use Rattle.text_stream.specs.Watched.{TellsFailure};
ghost use Rattle.command_line.specs.Kept.{kept_of, most_of, reader_of, KeepsFront};

use clap::ArgMatches;
use std::alloc::Global;
use std::fs::File;
use std::io;
use std::io::Read;
use std::rt::Files;
use text_stream::{Source, Watched};

/// The most bytes that are kept of an input that is read by lines: as many as `check` looks at.
pub const KEPT_LINES: usize = 196_608;

/// The most bytes that are kept of a document: all that one may have.
pub const KEPT_DOCUMENT: usize = 16_777_216;

/// Standard input, or a file.
#[derive(Drop)]
pub enum Opened<I> {
    /// Standard input.
    Standard(I),
    /// A file.
    Named(File),
}

impl<I: Read> Read for Opened<I> {
    fn read(&mut self, buf: &mut [u8]) -> io::Result<usize> {
        match self {
            Opened::Standard(input) => input.read(buf),
            Opened::Named(file) => file.read(buf),
        }
    }
}

/// A reader of which the first bytes are kept, so many at most, as long as there is memory for them.
#[derive(Drop)]
pub struct CommandInput<R> {
    reader: R,
    kept: Vec<u8>,
    most: usize,
}

// The first of some bytes: so many, or all where there are fewer.
fn front_of(bytes: &[u8], most: usize) -> &[u8]
    ensures { result.now ≡ take most bytes.now }
{
    &bytes[..most.min(bytes.len())]
}

impl<R: Source> CommandInput<R> {
    /// A reader of which nothing was read.
    pub fn new(alloc: Global, reader: R, most: usize) -> CommandInput<R>
        ensures reader { reader_of result ≡ reader }
        ensures kept { kept_of result ≡ [] }
        ensures most { most_of result ≡ most }
    {
        CommandInput {
            reader,
            kept: Vec::new(alloc),
            most,
        }
    }

    /// The bytes that are kept.
    pub fn kept(&self) -> &[u8]
        ensures { result.now ≡ kept_of self.now }
    {
        &self.kept
    }

    // Keeps what there is room for of bytes that were read. Where there is no memory for it, nothing is kept any more.
    fn keep(&mut self, piece: &[u8])
        ensures reader { self.new.reader ≡ self.old.reader }
        ensures kept { KeepsFront self.old.most self.new.most
            self.old.kept.items self.new.kept.items piece.now }
    {
        let room = self.most.saturating_sub(self.kept.len());
        let kept = self.kept.extend_from_slice(front_of(piece, room));
        if kept.is_err() {
            self.kept.clear();
            self.most = 0;
        }
    }
}

impl<R: Source> Source for CommandInput<R> {
    ghost remaining = { λ input. R.remaining (reader_of input) };

    ghost has_failed = { λ input. R.has_failed (reader_of input) };

    fn read_some(&mut self, buf: &mut [u8]) -> io::Result<usize>
        ensures bound { ReadsAtMost result buf.new }
        ensures bytes { ReadConsumes (R.remaining (reader_of self.old)) (R.remaining (reader_of self.new))
            result buf.new }
        ensures failed { TellsFailure result
            (R.has_failed (reader_of self.old)) (R.has_failed (reader_of self.new)) }
        ensures kept { IfOk result (λ n.
            KeepsFront (most_of self.old) (most_of self.new)
            (kept_of self.old) (kept_of self.new) (take n buf.new)) }
    {
        match self.reader.read_some(buf) {
            Ok(len) => {
                self.keep(&buf[..len]);
                Ok(len)
            }
            Err(fault) => Err(fault),
        }
    }
}

// The name of the file that is read, where it is not standard input.
pub(crate) fn file_of<'a>(words: &ArgMatches<'a>) -> Option<&'a str> {
    match words.get_str("FILE") {
        Some("-") => None,
        name => name,
    }
}

/// What a command reads: the file that its word names, or else standard input. So many bytes of it are kept at most.
pub fn input_of<R: Files<File = File> + Input + AllocGlobal>(
    rt: &R,
    words: &ArgMatches,
    most: usize,
) -> io::Result<CommandInput<Watched<Opened<R::Reader>>>>
    ensures kept { IfOk result (λ input. kept_of input ≡ []) }
    ensures most { IfOk result (λ input. most_of input ≡ most) }
{
    let opened = match file_of(words) {
        Some(name) => Opened::Named(File::open(rt, name)?),
        None => Opened::Standard(rt.reader()),
    };
    Ok(CommandInput::new(rt.alloc(), Watched::new(opened), most))
}
