//! Lines of white space alone.

ghost use Rattle.std.specs.Prelude.{◌≡◌, List, ℕ};
ghost use Rattle.text_stream.specs.Told.{IsTold};
ghost use Rattle.live_command.specs.Spoken.{is_white, is_blank, is_spoken};

use text_stream::{MAX_LINE, Told};

// Whether a byte is white space of JSON.
fn is_white(byte: u8) -> bool
    ensures { result ≡ is_white byte }
{
    byte == b' ' || byte == b'\t' || byte == b'\n' || byte == b'\r'
}

// Whether a line is white space of JSON alone.
fn is_blank(line: &[u8]) -> bool
    ensures { result ≡ is_blank line.now }
{
    for byte in line {
        if !is_white(*byte) {
            return false;
        }
    }
    true
}

/// Whether a line is answered: it is long, or it is not blank.
pub fn is_spoken(line: &[u8]) -> bool
    ensures { result ≡ is_spoken line.now }
{
    line.len() > MAX_LINE || !is_blank(line)
}

/// Whether the line that was told is answered.
pub fn is_told_spoken(told: Told, shown: &[u8]) -> bool
    ensures { (line : List ℕ) → IsTold line told shown.now → result ≡ is_spoken line }
{
    match told {
        Told::Long => true,
        Told::Line => is_spoken(shown),
    }
}
