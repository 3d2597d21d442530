//! Writing bytes to the program's output.

ghost use Rattle.text_stream.specs.Writing.{Writes};

use crate::fault::TextFault;
use crate::watched::Sink;

/// Writes all of the bytes. A write that fails, is interrupted or takes nothing ends it.
pub fn put<W: Sink>(writer: &mut W, bytes: &[u8]) -> Result<(), TextFault>
    ensures { Writes W.contents W.has_failed writer.old writer.new bytes.now result }
{
    let mut at = 0;
    while at < bytes.len() {
        match writer.write_some(&bytes[at..]) {
            Ok(n) => at += n,
            Err(_) => return Err(TextFault::Output),
        }
    }
    Ok(())
}
