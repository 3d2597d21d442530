//! Numbers in columns.

ghost use Rattle.std.specs.Prelude.{◌≡◌, ◌≤◌, ◌++◌, OnOk, decimal};
ghost use Rattle.map_drawing.specs.Text.{spaces, column};

use itoa::Buffer;
use std::alloc::AllocError;

// As many spaces as the widest gap has.
const SPACES: [u8; 16] = [b' '; 16];

// Puts so many spaces behind a text.
#[tactic(auto, unfolding(crate::specs::Text::spaces))]
pub(crate) fn push_spaces(text: &mut Vec<u8>, count: usize) -> Result<(), AllocError>
    requires { count ≤ 16 }
    ensures { OnOk result (text.new.items ≡ text.old.items ++ spaces count) }
{
    text.extend_from_slice(&SPACES[..count])
}

// Puts a number in decimal behind a text.
pub(crate) fn push_number(text: &mut Vec<u8>, number: u64) -> Result<(), AllocError>
    ensures { OnOk result (text.new.items ≡ text.old.items ++ decimal number) }
{
    let mut buffer = Buffer::new();
    text.extend_from_slice(buffer.format(number).as_bytes())
}

// Puts a number behind a text, at the right of so many places, and a space.
#[tactic(auto, unfolding(crate::specs::Text::column))]
pub(crate) fn push_column(text: &mut Vec<u8>, places: usize, number: u64) -> Result<(), AllocError>
    requires { places ≤ 16 }
    ensures { OnOk result (text.new.items ≡ text.old.items ++ column places number) }
{
    let mut buffer = Buffer::new();
    let digits = buffer.format(number).as_bytes();
    push_spaces(text, places.saturating_sub(digits.len()))?;
    text.extend_from_slice(digits)?;
    text.extend_from_slice(b" ")
}
