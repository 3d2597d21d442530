//! Minislots in milliseconds.

ghost use Rattle.std.specs.Prelude.{◌≡◌, ◌<◌, ◌≤◌};
ghost use Rattle.frame_picture.specs.Time.{fraction_digits, fraction_length, ms_text};
ghost use Rattle.text_stream.specs.Writing.{Puts};

use itoa::Buffer;
use text_stream::{Sink, TextBuffer, TextFault};

// A point, and the four digits of so many ten-thousandths.
fn fraction_digits(parts: u32) -> [u8; 5]
    requires { parts < 10000 }
    ensures { result ≡ fraction_digits parts }
{
    [
        b'.',
        b'0' + (parts / 1000) as u8,
        b'0' + (parts / 100 % 10) as u8,
        b'0' + (parts / 10 % 10) as u8,
        b'0' + (parts % 10) as u8,
    ]
}

// How many of these are left without the zeros at the end, and without the point where nothing is behind it.
#[tactic(auto, unfolding(crate::specs::Time::fraction_length))]
fn fraction_length(parts: u32) -> usize
    ensures value { result ≡ fraction_length parts }
    ensures most { result ≤ 5 }
{
    if parts == 0 {
        0
    } else if parts % 1000 == 0 {
        2
    } else if parts % 100 == 0 {
        3
    } else if parts % 10 == 0 {
        4
    } else {
        5
    }
}

// So many minislots of so many ticks in milliseconds, 160 ticks in each.
#[tactic(auto, unfolding(crate::specs::Time::ms_text))]
pub(crate) fn put_ms<W: Sink>(
    lines: &mut TextBuffer,
    writer: &mut W,
    ticks: u32,
    slots: u64,
) -> Result<(), TextFault>
    ensures { Puts W.contents W.has_failed writer.old writer.new lines.old lines.new
        (ms_text ticks slots) result }
{
    let all = u128::from(slots) * u128::from(ticks);
    let parts = (all % 160) as u32 * 125 / 2;
    let mut buffer = Buffer::new();
    lines.put(writer, buffer.format(all / 160).as_bytes())?;
    lines.put(writer, &fraction_digits(parts)[..fraction_length(parts)])
}
