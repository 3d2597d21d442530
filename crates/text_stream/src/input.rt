//! The bytes of an input, and the JSON value that they are the text of.

ghost use Rattle.std.specs.Prelude.{IfOk, IfErr};
ghost use Rattle.serde_json.specs.View.{view};
ghost use Rattle.text_stream.specs.Input.{Gives};
ghost use Rattle.text_stream.specs.Watched.{FailsBy};
ghost use Rattle.text_stream.specs.Input.{value_of, ReadsAll, StopsReading};

use crate::fault::TextFault;
use crate::watched::Source;
use serde_json::Value;
use std::alloc::Global;

/// The most bytes of an input.
pub const MAX_INPUT: usize = 16_777_216;

/// The bytes of one read.
const PIECE: usize = 65_536;

/// All bytes that the reader has. A read that fails ends it, one that was interrupted among them,
/// and so does the first byte too many, after which nothing more is read.
pub fn read_all<R: Source>(alloc: Global, reader: &mut R) -> Result<Vec<u8>, TextFault>
    ensures ok { IfOk result (λ bytes.
        ReadsAll (R.remaining reader.old) (R.remaining reader.new) bytes.items) }
    ensures stops { IfErr result
        (StopsReading (R.remaining reader.old) (R.remaining reader.new)) }
    ensures failed { FailsBy TextFault.Input result
        (R.has_failed reader.old) (R.has_failed reader.new) }
{
    let mut bytes = Vec::new(alloc);
    let mut piece = [0; PIECE];
    loop {
        let Ok(len) = reader.read_some(&mut piece) else {
            return Err(TextFault::Input);
        };
        if len == 0 {
            return Ok(bytes);
        }
        if len > MAX_INPUT - bytes.len() {
            return Err(TextFault::TooLong);
        }
        bytes.extend_from_slice(&piece[..len])?;
    }
}

/// The JSON value that the bytes are the text of, in UTF-8.
#[tactic(auto, unfolding(crate::specs::Input::value_of))]
pub fn parse(alloc: Global, bytes: &[u8]) -> Result<Value, TextFault>
    ensures { Gives (λ v. view v) result (value_of bytes.now) }
{
    match Value::from_slice(alloc, bytes) {
        Ok(value) => Ok(value),
        Err(e) if e.is_memory() => Err(TextFault::Memory),
        Err(_) => Err(TextFault::NotJson),
    }
}
