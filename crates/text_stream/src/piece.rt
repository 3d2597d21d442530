//! Bytes that are read piece by piece until a line ends.

ghost use Rattle.std.specs.Prelude.{◌≡◌, ◌+◌, ◌≤◌, ◌<◌, List, ℕ, [], ◌∷◌, ◌++◌, take, drop, length};
ghost use Rattle.std.specs.Prelude.{IfOk, IfErr, IfSome, Some, None};
ghost use Rattle.std.specs.Prelude.{slice_index};
ghost use Rattle.std.specs.Io.KnownBytes.{prepend_known};
ghost use Rattle.text_stream.specs.declared.TheConstants.{MAX_LINE, NEWLINE};
ghost use Rattle.text_stream.specs.declared.piece.TheConstants.{PIECE};
ghost use Rattle.text_stream.specs.Lines.{IsWithinLine};
ghost use Rattle.text_stream.specs.Piece.{told_of, IsHeld, IsCut, IsLast, Finds};
ghost use Rattle.text_stream.specs.Told.{StopsReading};
ghost use Rattle.text_stream.specs.Watched.{FailsBy};

use crate::fault::TextFault;
use crate::watched::Source;
use crate::{MAX_LINE, NEWLINE, Told};
use arrayvec::ArrayVec;
use memchr::memchr;

/// The most bytes of one read.
pub(crate) const PIECE: usize = 65_536;

/// The most bytes that are kept: those of a line that is not long, and of one read.
pub(crate) const ROOM: usize = 131_072;

/// Bytes that were read.
pub(crate) type Bytes = ArrayVec<u8, ROOM>;

/// Where a line ends among bytes that were read.
#[derive(Clone, Copy)]
pub(crate) struct Cut {
    /// What is told of it. The front of a long one is no more among the bytes.
    pub told: Told,
    /// Where it ends.
    pub end: usize,
    /// Where the bytes behind it begin.
    pub next: usize,
    /// How many bytes it has, where no newline ends it.
    pub torn: Option<u64>,
}

// Lets go of so many bytes at the front.
pub(crate) fn drop_front(bytes: &mut Bytes, count: usize)
    requires { count ≤ length bytes.old.items }
    ensures { bytes.new.items ≡ drop count bytes.old.items }
{
    let len = bytes.len();
    bytes.as_mut_slice().copy_within(count..len, 0);
    bytes.truncate(len - count);
}

// Keeps a piece without a newline behind the bytes of its line so far, and tells whether the line is long. Nothing is
// kept of a long one.
fn keep(bytes: &mut Bytes, is_long: bool, piece: &[u8]) -> bool
    requires { length bytes.old.items ≤ MAX_LINE }
    ensures { (front : List ℕ) → IsHeld front is_long bytes.old.items →
        IsHeld (front ++ piece.now) result bytes.new.items }
{
    if is_long || piece.len() > MAX_LINE - bytes.len() {
        bytes.clear();
        return true;
    }
    let _fits = bytes.try_extend_from_slice(piece);
    false
}

// What is told of a line that is long or not.
fn told_of(is_long: bool) -> Told
    ensures { result ≡ told_of is_long }
{
    if is_long { Told::Long } else { Told::Line }
}

// Ends a line at a place in a piece, at which a newline stands.
fn end_line(bytes: &mut Bytes, is_long: bool, piece: &[u8], at: usize) -> Cut
    requires kept { length bytes.old.items ≤ MAX_LINE }
    requires piece { length piece.now ≤ PIECE }
    requires place { at < length piece.now }
    ensures torn { result.torn ≡ None }
    ensures cuts { (front : List ℕ) → IsHeld front is_long bytes.old.items →
        IsCut (front ++ take at piece.now) (drop (at + 1) piece.now) bytes.new.items result }
{
    let end = bytes.len() + at;
    let _fits = bytes.try_extend_from_slice(piece);
    Cut {
        told: told_of(is_long || end > MAX_LINE),
        end,
        next: end + 1,
        torn: None,
    }
}

// Ends the last line, which no newline ends, where it has bytes: so many.
fn last(bytes: &Bytes, is_long: bool, count: u64) -> Option<Cut>
    ensures torn { IfSome result (λ c. c.torn ≡ Some count) }
    ensures cuts { (front : List ℕ) → IsHeld front is_long bytes.now.items
        → IsLast front bytes.now.items result }
{
    let len = bytes.len();
    if len == 0 && !is_long {
        return None;
    }
    Some(Cut {
        told: told_of(is_long),
        end: len,
        next: len,
        torn: Some(count),
    })
}

// Reads to the end of the line that the bytes begin, or only until it is known to be long, where it does not read on.
pub(crate) fn read_line<R: Source>(
    bytes: &mut Bytes,
    piece: &mut [u8],
    reader: &mut R,
    reads_on: bool,
) -> Result<Option<Cut>, TextFault>
    requires within { IsWithinLine bytes.old.items }
    requires kept { length bytes.old.items ≤ MAX_LINE }
    requires piece { length piece.old ≡ PIECE }
    ensures finds { IfOk result (Finds (prepend_known bytes.old.items (R.remaining reader.old))
        (R.remaining reader.new) bytes.new.items) }
    ensures stops { IfErr result (StopsReading reads_on (prepend_known bytes.old.items (R.remaining reader.old))
        (R.remaining reader.new)) }
    ensures left { IfErr result (λ _. length bytes.new.items ≤ MAX_LINE) }
    ensures failed { FailsBy TextFault.Input result
        (R.has_failed reader.old) (R.has_failed reader.new) }
{
    let mut is_long = false;
    let mut count = bytes.len() as u64;
    for _ in 0..u64::MAX {
        let Ok(len) = reader.read_some(piece) else {
            return Err(TextFault::Input);
        };
        if len == 0 {
            return Ok(last(bytes, is_long, count));
        }
        let read = &piece[..len];
        match memchr(NEWLINE, read) {
            Some(at) => return Ok(Some(end_line(bytes, is_long, read, at))),
            None => {
                is_long = keep(bytes, is_long, read);
                count = count.saturating_add(len as u64);
                if is_long && !reads_on {
                    return Err(TextFault::TooLong);
                }
            }
        }
    }
    Err(TextFault::TooLong)
}
