//! Numbers in a text.

ghost use Rattle.std.specs.Prelude.{◌≡◌, ◌≤◌, ◌++◌, OnOk, replicate, decimal};
ghost use Rattle.bursts_command.specs.Text.{column};

use itoa::Buffer;
use std::alloc::AllocError;

// As many spaces as the widest column has places.
const SPACES: [u8; 12] = [b' '; 12];

/// Puts a text behind another.
pub(crate) fn push_text(words: &mut Vec<u8>, text: &[u8]) -> Result<(), AllocError>
    ensures { OnOk result (words.new.items ≡ words.old.items ++ text.now) }
{
    words.extend_from_slice(text)
}

/// Puts a number in decimal behind a text.
pub(crate) fn push_decimal(words: &mut Vec<u8>, number: u64) -> Result<(), AllocError>
    ensures { OnOk result (words.new.items ≡ words.old.items ++ decimal number) }
{
    let mut buffer = Buffer::new();
    push_text(words, buffer.format(number).as_bytes())
}

// Puts so many spaces behind a text.
fn push_spaces(words: &mut Vec<u8>, count: usize) -> Result<(), AllocError>
    requires { count ≤ 12 }
    ensures { OnOk result (words.new.items ≡ words.old.items ++ replicate count 32) }
{
    push_text(words, &SPACES[..count])
}

/// Puts a text at the right edge of a column of so many places, behind a space at least.
#[tactic(auto, unfolding(crate::specs::Text::column))]
pub(crate) fn push_column(words: &mut Vec<u8>, places: usize, text: &[u8]) -> Result<(), AllocError>
    requires { places ≤ 12 }
    ensures { OnOk result (words.new.items ≡ words.old.items ++ column places text.now) }
{
    push_text(words, b" ")?;
    push_spaces(words, places.saturating_sub(text.len()))?;
    push_text(words, text)
}

/// Puts a number in such a column.
pub(crate) fn push_number(words: &mut Vec<u8>, places: usize, number: u64) -> Result<(), AllocError>
    requires { places ≤ 12 }
    ensures { OnOk result (words.new.items ≡ words.old.items ++ column places (decimal number)) }
{
    let mut buffer = Buffer::new();
    push_column(words, places, buffer.format(number).as_bytes())
}
