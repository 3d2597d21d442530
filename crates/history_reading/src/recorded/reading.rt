//! The history in the bytes of a reader.

ghost use Rattle.std.specs.Prelude.{◌≤◌, vec_len, Ok, IfOk, IfErr};
ghost use Rattle.std.specs.List.{AllByRecursion};
ghost use Rattle.sched_calls.specs.Reply.{IsEncodable};
ghost use Rattle.sched_calls.specs.declared.reply.TheConstants.{MAX_ENTRIES};
ghost use Rattle.text_stream.specs.Input.{Gives};
ghost use Rattle.history_reading.specs.Recorded.{history_in, history_with, GivesHistory, StopsHistory};
ghost use Rattle.history_reading.specs.Usual.{recorded_text};
ghost use Rattle.text_stream.specs.Watched.{FailsBy};

use super::quick_entry::InHistory;
use super::{Recorded, history_of};
use call_reading::read_usual;
use json_fields::Stop;
use minislots::Checked;
use sched_calls::Entry;
use std::alloc::Global;
use text_stream::{Source, TextFault, parse, read_all};

// The history that a text stands for. One that is not in the usual form is read as a tree, which tells its fault.
fn history_of_text(alloc: Global, bytes: &[u8]) -> Result<Recorded, TextFault>
    ensures { Gives history_with result (recorded_text bytes.now) }
{
    match read_usual::<InHistory, _>(alloc, bytes, "entries") {
        Ok((config, entries)) => Ok(Recorded { config, entries }),
        Err(Stop::Memory) => Err(TextFault::Memory),
        Err(Stop::Unusual) => {
            let value = parse(alloc, bytes)?;
            history_of(alloc, &value)
        }
    }
}

// The history that a text stands for, where its configuration is lawful.
#[tactic(auto, using(crate::proofs::Documents::history_tested_behind))]
fn history_in(alloc: Global, bytes: &[u8]) -> Result<(Checked, Vec<Entry>), TextFault>
    ensures { Gives (λ r. record { config = r.0; entries = r.1.items }) result
        (history_in bytes.now) }
{
    let Recorded { config, entries } = history_of_text(alloc, bytes)?;
    let config = config.check()?;
    Ok((config, entries))
}

/// The configuration and the entries of the history in a reader, of which all bytes are read. The faults come in
/// the order of [`TextFault`]: a fault of shape at any entry comes before a wrong configuration. Nothing says that
/// an entry may follow those before it, but its MAP is well formed where it has one.
pub fn read_history<R: Source>(
    alloc: Global,
    reader: &mut R,
) -> Result<(Checked, Vec<Entry>), TextFault>
    ensures ok { IfOk result (λ r. GivesHistory (R.remaining reader.old) (R.remaining reader.new)
        (Ok (record { config = r.0; entries = r.1.items }))) }
    ensures encodable { IfOk result (λ r. AllByRecursion (λ e. IsEncodable e.reply) r.1.items) }
    ensures few { IfOk result (λ r. vec_len r.1 ≤ MAX_ENTRIES) }
    ensures stops { IfErr result
        (StopsHistory (R.remaining reader.old) (R.remaining reader.new)) }
    ensures failed { FailsBy TextFault.Input result
        (R.has_failed reader.old) (R.has_failed reader.new) }
{
    let bytes = read_all(alloc, reader)?;
    history_in(alloc, &bytes)
}
