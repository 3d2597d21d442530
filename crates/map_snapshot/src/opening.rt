//! How a press is opened.
ghost use Rattle.std.specs.Prelude.{◌≡◌, ◌<◌, ◌≤◌, [], replicate, Err, IfOk, IfErr};
ghost use Rattle.map_snapshot.specs.declared.opening.TheConstants.{MAX_READERS};
ghost use Rattle.map_snapshot.specs.declared.fault.PressFault.TheVariants.{ReaderCount, Memory};
ghost use Rattle.map_snapshot.specs.Maps.{unread};

use crate::counts::Counts;
use crate::ends::{Same, Shows, Takes, Writer};
use crate::fault::PressFault;
use crate::list::Seen;
use crate::press::{Press, settle};
use crate::reader::Reader;
use crate::sheet::Sheet;
use logbook::{Start, Word};
use std::alloc::{AllocError, Global};
use std::sync::{Arc, Wait};

/// The most readers of a press.
pub const MAX_READERS: usize = 16;

// A press with places for so many readers.
fn lay<R: Wait>(rt: &R, alloc: Global, places: usize) -> Result<Press, AllocError>
    requires some { 0 < places }
    requires few { places ≤ MAX_READERS }
    ensures new { IfOk result (λ p. (p.list ≡ []) × (p.waiting ≡ [])) }
{
    let (seen, mut pen, _unused) = Seen::open(Start::alone(), 0, 0);
    let counts = Arc::new(alloc, Counts::new(alloc, Word::tracked(0, &mut pen))?)?;
    let first = Sheet::blank(seen.again());
    let second = Sheet::blank(seen);
    let writer = Writer::new(alloc, first, second, places)?;
    let (writer, shown) = writer.publish_as::<Shows, R>(rt);
    let Ok(()) = shown else { unreachable!() };
    settle(rt, &writer);
    Ok(Press { writer, counts })
}

impl Press {
    // One reader more, which knows that nothing was published.
    fn reader(&mut self) -> Result<Reader, AllocError>
        requires new { self.old.list ≡ [] }
        ensures same { self.new ≡ self.old }
        ensures made { IfOk result (λ r. r ≡ unread self.old.press) }
    {
        let latest = self.counts.latest.another()?;
        let mut end = self.writer.factory().reader()?;
        end.learn::<Takes>(self.writer.tell::<Same>());
        let known = self.tell();
        Ok(Reader {
            end: Some(end),
            known,
            latest,
        })
    }
}

/// Opens a press with this many readers, at most 16, none of which has read anything. More readers are
/// `ReaderCount`, and lack of memory is `Memory`; after either nothing is left open. It takes a handle that waits:
/// it makes the first publish, and ends the press that a later lack of memory leaves, and both are calls that may
/// wait. There is no reader yet for whom they could.
pub fn open_press<R: Wait>(
    rt: &R,
    alloc: Global,
    readers: usize,
) -> Result<(Press, Vec<Reader>), PressFault>
    ensures opened { IfOk result (λ r. (r.0.list ≡ []) × (r.0.waiting ≡ [])
        × (r.1.items ≡ replicate readers (unread r.0.press))) }
    ensures count { MAX_READERS < readers → result ≡ Err ReaderCount }
    ensures memory { readers ≤ MAX_READERS → IfErr result (λ e. e ≡ Memory) }
{
    if readers > MAX_READERS {
        return Err(PressFault::ReaderCount);
    }
    let Ok(mut row) = Vec::with_capacity(alloc, readers) else {
        return Err(PressFault::Memory);
    };
    let Ok(mut press) = lay(rt, alloc, readers.max(1)) else {
        return Err(PressFault::Memory);
    };
    for _ in 0..readers {
        match press.reader() {
            Ok(reader) => row.push_reserved(reader),
            Err(_) => {
                press.end(rt);
                return Err(PressFault::Memory);
            }
        }
    }
    Ok((press, row))
}
