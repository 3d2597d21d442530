//! The script of a run: the configuration of a channel, and the calls that are made in order.

ghost use Rattle.std.specs.Prelude.{◌<◌, ◌+◌, ◌^◌};
ghost use Rattle.serde_json.specs.View.{view, items_view};
ghost use Rattle.text_stream.specs.Input.{Gives};
ghost use Rattle.script_reading.specs.Script.{calls_of, script_of, scenario_of};

mod reading;
mod storms;

use call_reading::call_of;
use json_fields::{config_in, member};
use minislots::Config;
pub use reading::read_script;
use sched_calls::Call;
use serde_json::Value;
use std::alloc::Global;
pub use storms::read_storm;
use text_stream::TextFault;

/// A script as it was read: its configuration may have a wrong field.
#[derive(Drop)]
pub struct Script {
    /// The configuration, of which the shape alone was tested.
    pub config: Config,
    /// The calls in their order.
    pub calls: Vec<Call>,
}

// The calls of an array, with so many calls before it. The first that is none is the fault, counted from 1.
fn calls_after(alloc: Global, before: u64, values: &[Value]) -> Result<Vec<Call>, TextFault>
    requires { before < 2 ^ 63 }
    ensures { Gives (λ calls. calls.items) result (calls_of (before + 1) (items_view values.now)) }
{
    let mut calls = Vec::with_capacity(alloc, values.len())?;
    for (index, value) in values.iter().enumerate() {
        let Some(call) = call_of(value) else {
            return Err(TextFault::Shape(before + index as u64 + 1));
        };
        calls.push_reserved(call);
    }
    Ok(calls)
}

/// The script that a JSON value stands for: an object with `config`, an object that has every field
/// of a configuration as a whole number that fits, and `calls`, an array of objects. Other keys are
/// ignored. A fault in the document or its configuration is that of shape with 0, and comes first.
/// Otherwise the first call that is none, counted from 1, is the fault.
#[tactic(auto, unfolding(crate::specs::Script::script_of))]
pub fn script_of(alloc: Global, value: &Value) -> Result<Script, TextFault>
    ensures { Gives scenario_of result (script_of (view value.now)) }
{
    let Some(config) = config_in(value) else {
        return Err(TextFault::Shape(0));
    };
    let Some(values) = member(value, "calls").and_then(Value::as_array) else {
        return Err(TextFault::Shape(0));
    };
    let calls = calls_after(alloc, 0, values)?;
    Ok(Script { config, calls })
}
