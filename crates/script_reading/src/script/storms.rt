//! The script of a storm: a configuration, and the calls of each worker.

ghost use Rattle.std.specs.Prelude.{◌≡◌, ◌≤◌, ◌<◌, ◌+◌, ◌^◌, length, vec_len, Ok, IfOk, IfErr, IsTrue};
ghost use Rattle.sched_calls.specs.declared.call.TheConstants.{MAX_SCRIPTS};
ghost use Rattle.serde_json.specs.View.{view, items_view};
ghost use Rattle.text_stream.specs.Input.{Gives};
ghost use Rattle.script_reading.specs.StormScript.{calls_each, are_arrays, are_scripts, scripts_of, storm_with};
ghost use Rattle.script_reading.specs.StormScript.{storm_of};
ghost use Rattle.script_reading.specs.StormScript.{storm_text, GivesStorm, StopsStormScript};
ghost use Rattle.script_reading.specs.Usual.{scripts_text};
ghost use Rattle.text_stream.specs.Watched.{FailsBy};

use super::calls_after;
use call_reading::{InScript, read_usual};
use json_fields::{Stop, config_in, member};
use minislots::{Checked, Config};
use sched_calls::{Call, MAX_SCRIPTS};
use serde_json::Value;
use std::alloc::Global;
use text_stream::{Source, TextFault, parse, read_all};

/// The script of a storm as it was read: its configuration may have a wrong field.
#[derive(Drop)]
pub struct StormScript {
    /// The configuration, of which the shape alone was tested.
    pub config: Config,
    /// The calls of each worker, in their order: 1 to 16 lists.
    pub scripts: Vec<Vec<Call>>,
}

// Whether each value is an array.
fn are_arrays(values: &[Value]) -> bool
    ensures { result ≡ are_arrays (items_view values.now) }
{
    for value in values {
        if value.as_array().is_none() {
            return false;
        }
    }
    true
}

// Whether these are 1 to 16 arrays.
fn are_scripts(values: &[Value]) -> bool
    ensures are { result ≡ are_scripts (items_view values.now) }
    ensures some { IsTrue result → 1 ≤ length values.now }
    ensures few { IsTrue result → length values.now ≤ MAX_SCRIPTS }
{
    let count = values.len();
    if count == 0 {
        return false;
    }
    if count > MAX_SCRIPTS {
        return false;
    }
    are_arrays(values)
}

/// How many calls a script has.
fn count_calls(script: &[Call]) -> u64
    ensures value { result ≡ length script.now }
    ensures few { result < 2 ^ 59 }
{
    script.len() as u64
}

// The scripts of these arrays. Calls are counted through all of them.
fn scripts_of(alloc: Global, arrays: &[Value]) -> Result<Vec<Vec<Call>>, TextFault>
    requires { length arrays.now ≤ 16 }
    ensures are { Gives (λ scripts. calls_each scripts.items) result
        (scripts_of 0 (items_view arrays.now)) }
    ensures count { IfOk result (λ scripts. vec_len scripts ≡ length arrays.now) }
{
    let mut scripts = Vec::with_capacity(alloc, arrays.len())?;
    let mut before = 0;
    for array in arrays {
        let Some(values) = array.as_array() else {
            return Err(TextFault::Shape(0));
        };
        let calls = calls_after(alloc, before, values)?;
        before += count_calls(&calls);
        scripts.push_reserved(calls);
    }
    Ok(scripts)
}

/// The storm that a JSON value stands for: an object with `config`, as in the script of a run, and `scripts`, an
/// array of 1 to 16 arrays of calls. Other keys are ignored. A fault in the document, in its configuration or in
/// the number of scripts is that of shape with 0, and comes first. Otherwise the first call that is none,
/// counted from 1 through all scripts in order, is the fault.
#[tactic(auto, unfolding(crate::specs::StormScript::storm_of))]
pub fn storm_of(alloc: Global, value: &Value) -> Result<StormScript, TextFault>
    ensures is { Gives storm_with result (storm_of (view value.now)) }
    ensures some { IfOk result (λ s. 1 ≤ vec_len s.scripts) }
    ensures few { IfOk result (λ s. vec_len s.scripts ≤ MAX_SCRIPTS) }
{
    let Some(config) = config_in(value) else {
        return Err(TextFault::Shape(0));
    };
    let Some(arrays) = member(value, "scripts").and_then(Value::as_array) else {
        return Err(TextFault::Shape(0));
    };
    if !are_scripts(arrays) {
        return Err(TextFault::Shape(0));
    }
    let scripts = scripts_of(alloc, arrays)?;
    Ok(StormScript { config, scripts })
}

// The storm that a text in the usual form stands for.
fn usual_storm(alloc: Global, bytes: &[u8]) -> Result<StormScript, Stop>
    ensures is { IfOk result (λ s. scripts_text bytes.now ≡ Ok (storm_with s)) }
    ensures some { IfOk result (λ s. 1 ≤ vec_len s.scripts) }
    ensures few { IfOk result (λ s. vec_len s.scripts ≤ MAX_SCRIPTS) }
{
    let (config, scripts): (Config, Vec<Vec<Call>>) = read_usual::<InScript, _>(
        alloc, bytes, "scripts",
    )?;
    let count = scripts.len();
    if count == 0 || count > MAX_SCRIPTS {
        return Err(Stop::Unusual);
    }
    Ok(StormScript { config, scripts })
}

// The storm that a text stands for. One that is not in the usual form is read as a tree, which tells its fault.
fn storm_of_text(alloc: Global, bytes: &[u8]) -> Result<StormScript, TextFault>
    ensures is { Gives storm_with result (scripts_text bytes.now) }
    ensures some { IfOk result (λ s. 1 ≤ vec_len s.scripts) }
    ensures few { IfOk result (λ s. vec_len s.scripts ≤ MAX_SCRIPTS) }
{
    match usual_storm(alloc, bytes) {
        Ok(script) => Ok(script),
        Err(Stop::Memory) => Err(TextFault::Memory),
        Err(Stop::Unusual) => {
            let value = parse(alloc, bytes)?;
            storm_of(alloc, &value)
        }
    }
}

// The storm that a text stands for, where its configuration is lawful.
#[tactic(auto, using(crate::proofs::Documents::storm_tested_behind))]
fn storm_in(alloc: Global, bytes: &[u8]) -> Result<(Checked, Vec<Vec<Call>>), TextFault>
    ensures is { Gives (λ r. record { config = r.0; scripts = calls_each r.1.items }) result
        (storm_text bytes.now) }
    ensures some { IfOk result (λ r. 1 ≤ vec_len r.1) }
    ensures few { IfOk result (λ r. vec_len r.1 ≤ MAX_SCRIPTS) }
{
    let StormScript { config, scripts } = storm_of_text(alloc, bytes)?;
    let config = config.check()?;
    Ok((config, scripts))
}

/// The configuration and the scripts of the storm in a reader, of which all bytes are read. The faults come in
/// the order of [`TextFault`]: a fault of shape at any call comes before a wrong configuration.
pub fn read_storm<R: Source>(
    alloc: Global,
    reader: &mut R,
) -> Result<(Checked, Vec<Vec<Call>>), TextFault>
    ensures ok { IfOk result (λ r. GivesStorm (R.remaining reader.old) (R.remaining reader.new)
        (Ok (record { config = r.0; scripts = calls_each r.1.items }))) }
    ensures some { IfOk result (λ r. 1 ≤ vec_len r.1) }
    ensures few { IfOk result (λ r. vec_len r.1 ≤ MAX_SCRIPTS) }
    ensures stops { IfErr result
        (StopsStormScript (R.remaining reader.old) (R.remaining reader.new)) }
    ensures failed { FailsBy TextFault.Input result
        (R.has_failed reader.old) (R.has_failed reader.new) }
{
    let bytes = read_all(alloc, reader)?;
    storm_in(alloc, &bytes)
}
