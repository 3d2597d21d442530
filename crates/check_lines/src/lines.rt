//! The lines of bytes at hand.

ghost use Rattle.std.specs.Prelude.{◌≡◌, ◌<◌, [], ◌∷◌, length, IfSome, MatchOption};
ghost use Rattle.text_stream.specs.Lines.{lines_of, IsWithinLine};
ghost use Rattle.live_command.specs.Spoken.{spoken};

use live_command::is_spoken;
use memchr::memchr;
use text_stream::NEWLINE;

// Bytes without a newline, which are a line, unless there are none.
fn last_line(bytes: &[u8]) -> Option<(&[u8], &[u8])>
    requires { IsWithinLine bytes.now }
    ensures parts { MatchOption result (lines_of bytes.now ≡ [])
        (λ parts. lines_of bytes.now ≡ parts.0.now ∷ lines_of parts.1.now) }
    ensures shorter { IfSome result (λ parts. length parts.1.now < length bytes.now) }
{
    if bytes.is_empty() {
        return None;
    }
    Some((bytes, b""))
}

// The first line of bytes, and the bytes behind it. None where there are no bytes.
fn split_line(bytes: &[u8]) -> Option<(&[u8], &[u8])>
    ensures parts { MatchOption result (lines_of bytes.now ≡ [])
        (λ parts. lines_of bytes.now ≡ parts.0.now ∷ lines_of parts.1.now) }
    ensures shorter { IfSome result (λ parts. length parts.1.now < length bytes.now) }
{
    match memchr(NEWLINE, bytes) {
        Some(at) => Some((&bytes[..at], &bytes[at + 1..])),
        None => last_line(bytes),
    }
}

/// The first line that is not blank, and the bytes behind it. None where all lines are blank.
pub(crate) fn next_spoken(bytes: &[u8]) -> Option<(&[u8], &[u8])>
    ensures { MatchOption result (spoken (lines_of bytes.now) ≡ [])
        (λ parts. spoken (lines_of bytes.now) ≡ parts.0.now ∷ spoken (lines_of parts.1.now)) }
{
    let mut left = bytes;
    for _ in 0..bytes.len() {
        match split_line(left) {
            Some((line, behind)) => {
                if is_spoken(line) {
                    return Some((line, behind));
                }
                left = behind;
            }
            None => return None,
        }
    }
    None
}
