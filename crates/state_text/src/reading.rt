//! The state that a text stands for.

ghost use Rattle.std.specs.Prelude.{◌≡◌, ◌≤◌, ◌↔◌, Some, None, IfOk, OnOk, IfSome, IsTrue, IsSomeAnd, IsUtf8};
ghost use Rattle.std.specs.Prelude.{MatchOption};
ghost use Rattle.json.specs.Json.{document};
ghost use Rattle.json.specs.Strict.{HasUniqueKeys};
ghost use Rattle.serde_json.specs.Data.{depth};
ghost use Rattle.serde_json.specs.Read.{read, max_depth};
ghost use Rattle.serde_json.specs.View.{view};
ghost use Rattle.sched_calls.specs.declared.state.ChannelState.{ChannelState as StateOf};
ghost use Rattle.state_text.specs.Fits.{StateFits};
ghost use Rattle.state_text.specs.StateText.{state_data, IsStateText};

use crate::found::state_in;
use crate::state::state_text;
use json::{Error, Scratch, Value as Members};
use sched_calls::ChannelState;
use serde_json::Value;
use std::alloc::{AllocError, Global};
use std::str;

// The value of a text, where it has one.
fn value_in(alloc: Global, text: &[u8]) -> Result<Option<Value>, AllocError>
    ensures value { IfOk result (λ found.
        MatchOption found (IsUtf8 text.now → read text.now ≡ None)
        (λ v. IsUtf8 text.now × (read text.now ≡ Some (view v)))) }
    ensures nests { IfOk result (λ found. IfSome found (λ v. depth (view v) ≤ max_depth)) }
{
    match Value::from_slice(alloc, text) {
        Ok(value) => Ok(Some(value)),
        Err(fault) if fault.is_memory() => Err(AllocError),
        Err(_) => Ok(None),
    }
}

/// Whether a text is JSON in which no object has a key twice.
pub fn has_unique_keys(alloc: Global, text: &[u8]) -> Result<bool, AllocError>
    ensures { IfOk result (λ has.
        IsTrue has ↔ (IsUtf8 text.now × IsSomeAnd (document text.now) HasUniqueKeys)) }
{
    let Ok(text) = str::from_utf8(text) else {
        return Ok(false);
    };
    let mut scratch = Scratch::new(alloc);
    match Members::parse_strict(alloc, text, &mut scratch) {
        Ok(_) => Ok(true),
        Err(Error::OutOfMemory) => Err(AllocError),
        Err(_) => Ok(false),
    }
}

// Whether a value is that of a state: whether they have one text.
fn is_value_of(alloc: Global, value: &Value, state: &ChannelState) -> Result<bool, AllocError>
    requires { depth (view value.now) ≤ max_depth }
    ensures value { IfOk result (λ is. IsTrue is ↔ (view value.now ≡ state_data state.now)) }
    ensures fits { OnOk result (StateFits state.now) }
{
    let written = value.to_string(alloc)?;
    let text = state_text(alloc, state)?;
    Ok(written.as_bytes() == text.as_slice())
}

/// The state that a value is that of, where it is one: nothing else stands in it, nothing is missing, and all numbers
/// are whole.
pub fn state_of_value(alloc: Global, value: &Value) -> Result<Option<ChannelState>, AllocError>
    requires { depth (view value.now) ≤ max_depth }
    ensures exact { IfOk result (λ found.
        (s : StateOf) → StateFits s → (found ≡ Some s) ↔ (view value.now ≡ state_data s)) }
    ensures fits { IfOk result (λ found. IfSome found StateFits) }
{
    let Some(state) = state_in(alloc, value)? else {
        return Ok(None);
    };
    if !is_value_of(alloc, value, &state)? {
        return Ok(None);
    }
    Ok(Some(state))
}

/// The state that a text is one of, where it is one: no other key stands in it, none is missing and none stands twice,
/// and all numbers are whole. The order of keys is free, and so are spaces between them.
pub fn read_state(alloc: Global, text: &[u8]) -> Result<Option<ChannelState>, AllocError>
    ensures exact { IfOk result (λ found.
        (s : StateOf) → StateFits s → (found ≡ Some s) ↔ IsStateText text.now s) }
    ensures fits { IfOk result (λ found. IfSome found StateFits) }
{
    let Some(value) = value_in(alloc, text)? else {
        return Ok(None);
    };
    if !has_unique_keys(alloc, text)? {
        return Ok(None);
    }
    state_of_value(alloc, &value)
}
