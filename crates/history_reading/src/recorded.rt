//! The history that a text stands for: the configuration of a channel, and the entries in order.

ghost use Rattle.serde_json.specs.View.{view, items_view};
ghost use Rattle.text_stream.specs.Input.{Gives};
ghost use Rattle.history_reading.specs.Recorded.{entries_of, history_of, history_with};

mod entry;
mod numbers;
mod quick_entry;
mod quick_member;
mod quick_numbers;
mod quick_reply;
mod reading;
mod refusal;
mod reply;
mod single;

use entry::entry_of;
use json_fields::{config_in, member};
use minislots::Config;
pub use reading::read_history;
pub use refusal::refusal_with;
use sched_calls::Entry;
use serde_json::Value;
pub use single::entry_in;
use std::alloc::Global;
use text_stream::TextFault;

/// A history as it was read: its configuration may have a wrong field, and its entries may follow from nothing.
#[derive(Drop)]
pub struct Recorded {
    /// The configuration, of which the shape alone was tested.
    pub config: Config,
    /// The entries in their order, of which the shape alone was tested.
    pub entries: Vec<Entry>,
}

// The entries of an array. The first that is none is the fault, counted from 1.
fn entries_of(alloc: Global, values: &[Value]) -> Result<Vec<Entry>, TextFault>
    ensures { Gives (λ entries. entries.items) result (entries_of 1 (items_view values.now)) }
{
    let mut entries = Vec::with_capacity(alloc, values.len())?;
    for (index, value) in values.iter().enumerate() {
        let Some(entry) = entry_of(alloc, value)? else {
            return Err(TextFault::Shape(index as u64 + 1));
        };
        entries.push_reserved(entry);
    }
    Ok(entries)
}

/// The history that a JSON value stands for: an object with `config`, as in the script of a run, and `entries`, an
/// array of entries. Other keys are ignored. A fault in the document or its configuration is that of shape with 0,
/// and comes first. Otherwise the first entry that is none, counted from 1, is the fault.
#[tactic(auto, unfolding(crate::specs::Recorded::history_of))]
pub fn history_of(alloc: Global, value: &Value) -> Result<Recorded, TextFault>
    ensures { Gives history_with result (history_of (view value.now)) }
{
    let Some(config) = config_in(value) else {
        return Err(TextFault::Shape(0));
    };
    let Some(values) = member(value, "entries").and_then(Value::as_array) else {
        return Err(TextFault::Shape(0));
    };
    let entries = entries_of(alloc, values)?;
    Ok(Recorded { config, entries })
}
