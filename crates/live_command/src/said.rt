//! What the text of a line says.

ghost use Rattle.std.specs.Prelude.{◌≡◌, Ok, IfOk, MatchOption};
ghost use Rattle.serde_json.specs.View.{view};
ghost use Rattle.text_stream.specs.Input.{Gives};
ghost use Rattle.live_command.specs.Said.{IsNeither, asks_stats, said_by, said_in};

use call_reading::{call_of, read_quick_line};
use json::{Reader, Scratch};
use json_fields::{Stop, Tree, config_of, member, read_plain};
use minislots::Config;
use sched_history::Call;
use serde_json::Value;
use std::alloc::Global;
use text_stream::{TextFault, parse};

/// How deep a value may nest.
const MAX_DEPTH: usize = 127;

/// What the text of a line says.
#[derive(Clone, Copy)]
pub(crate) enum Said {
    /// An object with the member `config`, and the configuration that this stands for, where it stands for one.
    Opening(Option<Config>),
    /// The numbers of the conversation are asked for: an object whose member `stats` is true, and that has no member
    /// `config` or `call`.
    Stats,
    /// Any other value, and the call that it stands for, where it stands for one.
    Call(Option<Call>),
}

// What a value says that is a configuration or a call, and nothing where it is neither.
#[tactic(auto, unfolding(crate::specs::Said::said_by))]
fn said_at_once<T: Tree>(value: &T) -> Option<Said>
    ensures { MatchOption result (IsNeither (T.shown value.now))
        (λ said. said ≡ said_by (T.shown value.now)) }
{
    match member(value, "config") {
        Some(config) => Some(Said::Opening(config_of(config))),
        None => Some(Said::Call(Some(call_of(value)?))),
    }
}

// Whether a value asks for the numbers of the conversation.
fn asks_stats(value: &Value) -> bool
    ensures { result ≡ asks_stats (view value.now) }
{
    value.get("call").is_none() && value.get("stats").and_then(Value::as_bool) == Some(true)
}

// What a value says.
#[tactic(auto, unfolding(crate::specs::Said::said_by))]
fn said_by(value: &Value) -> Said
    ensures { result ≡ said_by (view value.now) }
{
    match said_at_once(value) {
        Some(said) => said,
        None if asks_stats(value) => Said::Stats,
        None => Said::Call(None),
    }
}

// What a text says that is a call in its usual spelling.
fn read_called(alloc: Global, bytes: &[u8]) -> Result<Said, Stop>
    ensures { IfOk result (λ said. said_in bytes.now ≡ Ok said) }
{
    let call = read_quick_line(alloc, bytes)?;
    Ok(Said::Call(Some(call)))
}

// What a text says that is a configuration or a call, read from its tokens as a value.
fn read_tokens(alloc: Global, scratch: &mut Scratch, bytes: &[u8]) -> Result<Said, Stop>
    ensures { IfOk result (λ said. said_in bytes.now ≡ Ok said) }
{
    let Ok(text) = std::str::from_utf8(bytes) else {
        return Err(Stop::Unusual);
    };
    let mut reader = Reader::new(text, scratch)?;
    let value = read_plain(alloc, &mut reader, MAX_DEPTH)?;
    if reader.next().is_some() {
        return Err(Stop::Unusual);
    }
    match said_at_once(&value) {
        Some(said) => Ok(said),
        None => Err(Stop::Unusual),
    }
}

// What a text says, read as a tree.
fn read_tree(alloc: Global, bytes: &[u8]) -> Result<Said, TextFault>
    ensures { Gives (λ said. said) result (said_in bytes.now) }
{
    match parse(alloc, bytes) {
        Ok(value) => Ok(said_by(&value)),
        Err(fault) => Err(fault),
    }
}

// What a text says, read as a value. One that has other values than whole numbers, texts, arrays and objects is read
// as a tree, and so is one that is no configuration and no call, or not JSON.
fn read_value(alloc: Global, scratch: &mut Scratch, bytes: &[u8]) -> Result<Said, TextFault>
    ensures { Gives (λ said. said) result (said_in bytes.now) }
{
    match read_tokens(alloc, scratch, bytes) {
        Ok(said) => Ok(said),
        Err(Stop::Memory) => Err(TextFault::Memory),
        Err(Stop::Unusual) => read_tree(alloc, bytes),
    }
}

/// What the text of a line says. A call in its usual spelling is read at once, and anything else as a value. What
/// memory the scratch has is used again from text to text.
pub(crate) fn read_said(
    alloc: Global,
    scratch: &mut Scratch,
    bytes: &[u8],
) -> Result<Said, TextFault>
    ensures { Gives (λ said. said) result (said_in bytes.now) }
{
    match read_called(alloc, bytes) {
        Ok(said) => Ok(said),
        Err(_stop) => read_value(alloc, scratch, bytes),
    }
}
