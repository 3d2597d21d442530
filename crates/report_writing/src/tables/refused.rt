//! The refusals with each number.

ghost use Rattle.std.specs.Prelude.{◌≡◌, ◌<◌, ◌++◌, nat_lt, count_by, length, slice_index, OnOk};
ghost use Rattle.report_writing.specs.Tables.{refused_begin, refused_cells, refused_end, refused_text};

use crate::text::{push_decimal_right, push_number};
use std::alloc::AllocError;

// How many numbers stand in a line.
const IN_A_LINE: usize = 5;

// Begins a new line, where as many numbers were told as fill up those before it.
#[tactic(auto, unfolding(crate::specs::Tables::refused_begin))]
fn push_begin(words: &mut Vec<u8>, told: usize) -> Result<(), AllocError>
    ensures { OnOk result (words.new.items ≡ words.old.items ++ refused_begin told) }
{
    if told % IN_A_LINE == 0 {
        return words.extend_from_slice(b"\nrefused");
    }
    Ok(())
}

// A number, and how many refusals there were with it.
#[tactic(auto, unfolding(crate::specs::Tables::refused_cells))]
fn push_cells(words: &mut Vec<u8>, number: usize, count: u64) -> Result<(), AllocError>
    ensures { OnOk result (words.new.items ≡ words.old.items ++ refused_cells number count) }
{
    push_decimal_right(words, number as u64, 3)?;
    words.extend_from_slice(b":")?;
    push_number(words, u128::from(count), 8)
}

// The end of the lines, where there are any.
#[tactic(auto, unfolding(crate::specs::Tables::refused_end))]
fn push_end(words: &mut Vec<u8>, told: usize) -> Result<(), AllocError>
    ensures { OnOk result (words.new.items ≡ words.old.items ++ refused_end told) }
{
    if told > 0 {
        return words.extend_from_slice(b"\n");
    }
    Ok(())
}

// How many refusals there were with each number, where there was one.
#[tactic(auto, unfolding(crate::specs::Tables::refused_text))]
pub(crate) fn push_refused(words: &mut Vec<u8>, refused: &[u64]) -> Result<(), AllocError>
    ensures { OnOk result (words.new.items ≡ words.old.items ++ refused_text refused.now) }
{
    let mut told = 0;
    for place in 0..refused.len() {
        let count = refused[place];
        if count > 0 {
            push_begin(words, told)?;
            push_cells(words, place + 1, count)?;
            told += 1;
        }
    }
    push_end(words, told)
}
