//! The script in the bytes of a reader.

ghost use Rattle.std.specs.Prelude.{IfOk, IfErr};
ghost use Rattle.text_stream.specs.Input.{Gives};
ghost use Rattle.script_reading.specs.Script.{scenario_of};
ghost use Rattle.script_reading.specs.Usual.{script_text};
ghost use Rattle.text_stream.specs.Watched.{FailsBy};
ghost use Rattle.script_reading.specs.Outcome.{text_outcome, StandsFor, StopsScript};

use super::{Script, script_of};
use call_reading::{InScript, read_usual};
use json_fields::Stop;
use minislots::Checked;
use sched_calls::Call;
use std::alloc::Global;
use text_stream::{Source, TextFault, parse, read_all};

// The script that a text stands for. One that is not in the usual form is read as a tree, which tells its fault.
fn script_of_text(alloc: Global, bytes: &[u8]) -> Result<Script, TextFault>
    ensures { Gives scenario_of result (script_text bytes.now) }
{
    match read_usual::<InScript, _>(alloc, bytes, "calls") {
        Ok((config, calls)) => Ok(Script { config, calls }),
        Err(Stop::Memory) => Err(TextFault::Memory),
        Err(Stop::Unusual) => {
            let value = parse(alloc, bytes)?;
            script_of(alloc, &value)
        }
    }
}

// The script that a text stands for, where its configuration is lawful.
#[tactic(auto, using(crate::proofs::Documents::script_tested_behind))]
fn script_in(alloc: Global, bytes: &[u8]) -> Result<(Checked, Vec<Call>), TextFault>
    ensures { Gives (λ r. record { config = r.0; calls = r.1.items }) result
        (text_outcome bytes.now) }
{
    let Script { config, calls } = script_of_text(alloc, bytes)?;
    let config = config.check()?;
    Ok((config, calls))
}

/// The configuration and the calls of the script in a reader, of which all bytes are read. The
/// faults come in the order of [`TextFault`]: a fault of shape at any call comes before a wrong
/// configuration.
pub fn read_script<R: Source>(
    alloc: Global,
    reader: &mut R,
) -> Result<(Checked, Vec<Call>), TextFault>
    ensures ok { IfOk result (λ r. StandsFor (R.remaining reader.old) (R.remaining reader.new)
        (record { config = r.0; calls = r.1.items })) }
    ensures stops { IfErr result
        (StopsScript (R.remaining reader.old) (R.remaining reader.new)) }
    ensures failed { FailsBy TextFault.Input result
        (R.has_failed reader.old) (R.has_failed reader.new) }
{
    let bytes = read_all(alloc, reader)?;
    script_in(alloc, &bytes)
}
