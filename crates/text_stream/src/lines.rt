//! A reader of lines, with what it has at hand.

ghost use Rattle.std.specs.Prelude.{◌≡◌, [], IfOk, IfErr, MatchOption};
ghost use Rattle.text_stream.specs.Lines.{IsWithinLine};
ghost use Rattle.text_stream.specs.Piece.{TellsCut, whole_cut};
ghost use Rattle.text_stream.specs.Told.{untold, TellsAtHand, TellsNext, HasEnded, StopsLine, StopsReading};
ghost use Rattle.text_stream.specs.Told.{whole_of, IsWhole};
ghost use Rattle.text_stream.specs.Watched.{FailsBy};

use crate::fault::TextFault;
use crate::piece::{Bytes, Cut, PIECE, drop_front, read_line};
use crate::watched::Source;
use crate::{NEWLINE, Told, Whole};
use arrayvec::ArrayVec;
use memchr::memchr;
use std::alloc::{AllocError, Global};
use std::marker::Model;

/// The lines of an input, one after the other. Contracts see the bytes that were read and are in no line that was told,
/// and the line that was told last. What it keeps of them is on the heap, for the stack's sake, and of a fixed size.
#[derive(Drop)]
pub struct Lines {
    bytes: Box<Bytes>,
    // What one read gives.
    piece: Box<[u8; PIECE]>,
    // Where the line that was told last begins and ends.
    line: usize,
    end: usize,
    // Where the bytes at hand begin.
    next: usize,
}

impl Model for Lines {
    ghost use Rattle.text_stream.specs.Told.{AtHand};
    ghost use Rattle.text_stream.specs.Inside.{at_hand, IsSound};

    ghost Value = { AtHand };

    ghost view = { at_hand };

    ghost invariant = { IsSound };
}

// What comes of a line that a newline ends.
fn whole_of(told: Told) -> Whole
    ensures { result ≡ whole_of told }
{
    match told {
        Told::Line => Whole::Line,
        Told::Long => Whole::Long,
    }
}

// What comes of a line that was read.
fn whole_cut(cut: Cut) -> Whole
    ensures { result ≡ whole_cut cut }
{
    match cut.torn {
        Some(count) => Whole::Torn(count),
        None => whole_of(cut.told),
    }
}

impl Lines {
    /// A reader that has read nothing.
    #[inline(never)]
    pub fn new(alloc: Global) -> Result<Lines, AllocError>
        ensures { IfOk result (λ lines. lines ≡ record { bytes = []; line = [] }) }
    {
        Ok(Lines {
            bytes: Box::new(alloc, ArrayVec::new())?,
            piece: Box::new(alloc, [0; PIECE])?,
            line: 0,
            end: 0,
            next: 0,
        })
    }

    /// Tells the next line, where all of it and its newline are at hand, without a read.
    pub fn at_hand(&mut self) -> Option<Told>
        ensures { MatchOption result (IsWithinLine self.old.bytes × (self.new ≡ self.old))
            (TellsAtHand self.old self.new) }
    {
        let at = memchr(NEWLINE, &self.bytes.as_slice()[self.next..])?;
        self.line = self.next;
        self.end = self.next + at;
        self.next = self.end + 1;
        Some(Told::Line)
    }

    /// Tells the next line, for which it reads where not all of it is at hand; none at the end of the input. A read
    /// that fails ends it, one that was interrupted among them; the front of a line that was begun is then lost.
    pub fn next<R: Source>(&mut self, reader: &mut R) -> Result<Option<Told>, TextFault>
        ensures told { IfOk result (λ told. MatchOption told
            (HasEnded (untold self.old (R.remaining reader.old))
            (untold self.new (R.remaining reader.new)))
            (TellsNext (untold self.old (R.remaining reader.old))
            (untold self.new (R.remaining reader.new))
            self.new)) }
        ensures stops { IfErr result
            (StopsLine (untold self.old (R.remaining reader.old)) (R.remaining reader.new)) }
        ensures failed { FailsBy TextFault.Input result
            (R.has_failed reader.old) (R.has_failed reader.new) }
    {
        self.next_reading(reader, true)
    }

    /// Tells the next line as [`Lines::next`] does; where it does not read on, it stops once more than 65536 bytes came
    /// without a newline, before more than 131072 of them were read.
    pub fn next_reading<R: Source>(
        &mut self,
        reader: &mut R,
        reads_on: bool,
    ) -> Result<Option<Told>, TextFault>
        ensures told { IfOk result (λ told. MatchOption told
            (HasEnded (untold self.old (R.remaining reader.old))
            (untold self.new (R.remaining reader.new)))
            (TellsNext (untold self.old (R.remaining reader.old))
            (untold self.new (R.remaining reader.new))
            self.new)) }
        ensures stops { IfErr result
            (StopsReading reads_on (untold self.old (R.remaining reader.old)) (R.remaining reader.new)) }
        ensures failed { FailsBy TextFault.Input result
            (R.has_failed reader.old) (R.has_failed reader.new) }
    {
        if let Some(told) = self.at_hand() {
            return Ok(Some(told));
        }
        match self.read_on(reader, reads_on) {
            Ok(Some(cut)) => Ok(Some(cut.told)),
            Ok(None) => Ok(None),
            Err(fault) => Err(fault),
        }
    }

    /// Tells the next line that a newline ends, for which it reads where not all of it is at hand; at the end of the
    /// input, how many bytes stand behind the last newline. A read that fails ends it, as in [`Lines::next`].
    pub fn next_whole<R: Source>(&mut self, reader: &mut R) -> Result<Whole, TextFault>
        ensures whole { IfOk result (IsWhole (untold self.old (R.remaining reader.old))
            (untold self.new (R.remaining reader.new)) self.new) }
        ensures stops { IfErr result
            (StopsLine (untold self.old (R.remaining reader.old)) (R.remaining reader.new)) }
        ensures failed { FailsBy TextFault.Input result
            (R.has_failed reader.old) (R.has_failed reader.new) }
    {
        if let Some(told) = self.at_hand() {
            return Ok(whole_of(told));
        }
        match self.read_on(reader, true) {
            Ok(Some(cut)) => Ok(whole_cut(cut)),
            Ok(None) => Ok(Whole::Torn(0)),
            Err(fault) => Err(fault),
        }
    }

    // Reads the next line, the front of which is all that is at hand.
    fn read_on<R: Source>(
        &mut self,
        reader: &mut R,
        reads_on: bool,
    ) -> Result<Option<Cut>, TextFault>
        requires { IsWithinLine self.old.bytes }
        ensures told { IfOk result (λ cut. MatchOption cut
            (HasEnded (untold self.old (R.remaining reader.old))
            (untold self.new (R.remaining reader.new)))
            (TellsCut (untold self.old (R.remaining reader.old))
            (untold self.new (R.remaining reader.new))
            self.new)) }
        ensures stops { IfErr result
            (StopsReading reads_on (untold self.old (R.remaining reader.old)) (R.remaining reader.new)) }
        ensures failed { FailsBy TextFault.Input result
            (R.has_failed reader.old) (R.has_failed reader.new) }
    {
        drop_front(&mut self.bytes, self.next);
        self.line = 0;
        self.end = 0;
        self.next = 0;
        match read_line(&mut self.bytes, &mut *self.piece, reader, reads_on) {
            Ok(Some(cut)) => {
                self.end = cut.end;
                self.next = cut.next;
                Ok(Some(cut))
            }
            Ok(None) => Ok(None),
            Err(fault) => Err(fault),
        }
    }

    /// The line that was told last, where it is not long.
    pub fn line(&self) -> &[u8]
        ensures { result.now ≡ self.now.line }
    {
        &self.bytes.as_slice()[self.line..self.end]
    }
}
