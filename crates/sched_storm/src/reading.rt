//! What a reader reads when a storm is over.

ghost use Rattle.std.specs.Prelude.{◌≡◌, length};
ghost use Rattle.sched_storm.specs.Storm.{HasRead};

use map_snapshot::{Press, Reader};
use std::sync::Wait;

/// The version that the reader reads once it is told of all that its press has published, or none where that is
/// nothing. The press is ended.
pub fn read_last<R: Wait>(rt: &R, press: Press, reader: Reader) -> Option<u64>
    requires own { reader.press ≡ press.press }
    ensures read { HasRead (length press.list) result }
{
    let (mut press, mut reader) = (press, reader);
    reader.learn(press.tell());
    press.end(rt);
    match reader.newest() {
        Some(printed) => Some(printed.version),
        None => None,
    }
}
