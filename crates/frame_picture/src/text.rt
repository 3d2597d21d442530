//! A label and a number.

ghost use Rattle.frame_picture.specs.Labelled.{labelled};
ghost use Rattle.text_stream.specs.Writing.{Puts};

use itoa::Buffer;
use text_stream::{Sink, TextBuffer, TextFault};

// A label, and a number in decimal.
#[tactic(auto, unfolding(crate::specs::Labelled::labelled))]
pub(crate) fn put_labelled<W: Sink>(
    lines: &mut TextBuffer,
    writer: &mut W,
    label: &[u8],
    number: u64,
) -> Result<(), TextFault>
    ensures { Puts W.contents W.has_failed writer.old writer.new lines.old lines.new
        (labelled label.now number) result }
{
    let mut buffer = Buffer::new();
    lines.put(writer, label)?;
    lines.put(writer, buffer.format(number).as_bytes())
}
