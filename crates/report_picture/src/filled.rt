//! Templates, and the numbers that stand in their holes.

ghost use Rattle.std.specs.Prelude.{◌≡◌, decimal, slice_get};
ghost use Rattle.report_picture.specs.Filled.{is_hole, tenths_text, thousandths_text, number_text, part_text, filled};
ghost use Rattle.text_stream.specs.Writing.{Puts};

use itoa::Buffer;
use text_stream::{Sink, TextBuffer, TextFault};

// The hole for a number, and those for one in tenths and in thousandths.
const WHOLE: u8 = b'@';

const TENTHS: u8 = b'~';

const THOUSANDTHS: u8 = b'^';

// Whether a character of a template is a hole.
#[tactic(auto, unfolding(crate::specs::Filled::is_hole))]
fn is_hole(character: u8) -> bool
    ensures { result ≡ is_hole character }
{
    matches!(character, WHOLE | TENTHS | THOUSANDTHS)
}

// A number in decimal.
fn put_decimal<W: Sink>(
    lines: &mut TextBuffer,
    writer: &mut W,
    number: u128,
) -> Result<(), TextFault>
    ensures { Puts W.contents W.has_failed writer.old writer.new lines.old lines.new
        (decimal number) result }
{
    let mut buffer = Buffer::new();
    lines.put(writer, buffer.format(number).as_bytes())
}

// So many tenths.
#[tactic(auto, unfolding(crate::specs::Filled::tenths_text))]
fn put_tenths<W: Sink>(
    lines: &mut TextBuffer,
    writer: &mut W,
    number: u128,
) -> Result<(), TextFault>
    ensures { Puts W.contents W.has_failed writer.old writer.new lines.old lines.new
        (tenths_text number) result }
{
    put_decimal(lines, writer, number / 10)?;
    lines.put(writer, &[b'.', b'0' + (number % 10) as u8])
}

// So many thousandths.
#[tactic(auto, unfolding(crate::specs::Filled::thousandths_text))]
fn put_thousandths<W: Sink>(
    lines: &mut TextBuffer,
    writer: &mut W,
    number: u128,
) -> Result<(), TextFault>
    ensures { Puts W.contents W.has_failed writer.old writer.new lines.old lines.new
        (thousandths_text number) result }
{
    put_decimal(lines, writer, number / 1000)?;
    let hundreds = b'0' + (number / 100 % 10) as u8;
    let tens = b'0' + (number / 10 % 10) as u8;
    let ones = b'0' + (number % 10) as u8;
    lines.put(writer, &[b'.', hundreds, tens, ones])
}

// A number in a hole.
#[tactic(auto, unfolding(crate::specs::Filled::number_text))]
fn put_number<W: Sink>(
    lines: &mut TextBuffer,
    writer: &mut W,
    hole: u8,
    number: u128,
) -> Result<(), TextFault>
    ensures { Puts W.contents W.has_failed writer.old writer.new lines.old lines.new
        (number_text hole number) result }
{
    match hole {
        WHOLE => put_decimal(lines, writer, number),
        TENTHS => put_tenths(lines, writer, number),
        _ => put_thousandths(lines, writer, number),
    }
}

// A character of a template, with the number that is next, where one is left.
#[tactic(auto, unfolding(crate::specs::Filled::part_text))]
fn put_part<W: Sink>(
    lines: &mut TextBuffer,
    writer: &mut W,
    character: u8,
    number: Option<u128>,
) -> Result<(), TextFault>
    ensures { Puts W.contents W.has_failed writer.old writer.new lines.old lines.new
        (part_text character number) result }
{
    match number {
        Some(number) if is_hole(character) => put_number(lines, writer, character, number),
        _ => lines.put(writer, &[character]),
    }
}

// The number at a place, where there is one.
fn number_at(numbers: &[u128], place: usize) -> Option<u128>
    ensures { result ≡ slice_get numbers.now place }
{
    numbers.get(place).copied()
}

// A template in whose holes these numbers stand, the first in the first one.
#[tactic(auto, unfolding(crate::specs::Filled::filled))]
pub(crate) fn put_filled<W: Sink>(
    lines: &mut TextBuffer,
    writer: &mut W,
    template: &[u8],
    numbers: &[u128],
) -> Result<(), TextFault>
    ensures { Puts W.contents W.has_failed writer.old writer.new lines.old lines.new
        (filled template.now numbers.now) result }
{
    let mut next = 0;
    for i in 0..template.len() {
        let character = template[i];
        put_part(lines, writer, character, number_at(numbers, next))?;
        if is_hole(character) {
            next += 1;
        }
    }
    Ok(())
}
