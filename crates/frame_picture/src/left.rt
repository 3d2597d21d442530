//! The mark of frames that were left out.

ghost use Rattle.frame_picture.specs.Picture.{left_text};
ghost use Rattle.text_stream.specs.Writing.{Puts};

use crate::text::put_labelled;
use text_stream::{Sink, TextBuffer, TextFault};

// The mark of so many frames that were left out, above the row of the next one.
#[tactic(auto, unfolding(crate::specs::Picture::left_text))]
pub(crate) fn put_left<W: Sink>(
    lines: &mut TextBuffer,
    writer: &mut W,
    left: u64,
) -> Result<(), TextFault>
    ensures { Puts W.contents W.has_failed writer.old writer.new lines.old lines.new
        (left_text left) result }
{
    if left == 0 {
        return Ok(());
    }
    let label = b"<text class='left' x='-172' y='0'>left out: ";
    put_labelled(lines, writer, label, left)?;
    lines.put(writer, b"</text><path class='gap' d='M-72-4H1024'/>\n")
}
