//! What a first line stands for.

ghost use Rattle.std.specs.Prelude.{◌≡◌, ◌≤◌, ◌↔◌, ℕ, codes, Some, None, IfOk, OnOk, IfSome, IsTrue, IsUtf8};
ghost use Rattle.std.specs.Prelude.{MatchOption, option_map};
ghost use Rattle.serde_json.specs.Data.{depth};
ghost use Rattle.serde_json.specs.Find.{get};
ghost use Rattle.serde_json.specs.Read.{read, max_depth};
ghost use Rattle.serde_json.specs.View.{view};
ghost use Rattle.minislots.specs.Config.{IsLawful};
ghost use Rattle.segment_line.specs.declared.segment.FirstLine.{FirstLine as Stands};
ghost use Rattle.segment_line.specs.declared.segment.FirstLine.TheVariants.{First};
ghost use Rattle.segment_line.specs.declared.segment.Segment.{Segment as SegmentOf};
ghost use Rattle.segment_line.specs.Fits.{SegmentFits, FirstFits};
ghost use Rattle.segment_line.specs.Opening.{opening_of};
ghost use Rattle.segment_line.specs.SegmentLine.{parts_data, IsSegmentValue, IsFirstLine};
ghost use Rattle.segment_line.specs.Spelled.{IsValueOf};

use crate::opening::{lawful_in, opening_of};
use crate::segment::{FirstLine, MAX_FIRST_LINE, Segment};
use crate::writing::{config_of, segment_object};
use channel_states::fault_of;
use json_fields::{member, number_u64};
use serde_json::Value;
use state_text::{has_unique_keys, state_of_value};
use std::alloc::{AllocError, Global};

// The value of a text, where it has one.
fn value_in(alloc: Global, text: &[u8]) -> Result<Option<Value>, AllocError>
    ensures value { IfOk result (λ found.
        MatchOption found (IsUtf8 text.now → read text.now ≡ None)
        (λ v. IsUtf8 text.now × (read text.now ≡ Some (view v)))) }
    ensures nests { IfOk result (λ found. IfSome found (λ v. depth (view v) ≤ max_depth)) }
{
    match Value::from_slice(alloc, text) {
        Ok(value) => Ok(Some(value)),
        Err(fault) if fault.is_memory() => Err(AllocError),
        Err(_) => Ok(None),
    }
}

// The segment whose parts an object has under their keys, whatever else it has.
fn parts_of(alloc: Global, object: &Value) -> Result<Option<Segment>, AllocError>
    requires { depth (view object.now) ≤ max_depth }
    ensures { IfOk result (λ found. (sum : ℕ) (s : SegmentOf) → SegmentFits s → IsLawful s.config →
        view object.now ≡ parts_data sum s → found ≡ Some s) }
{
    let Some(config) = lawful_in(object) else {
        return Ok(None);
    };
    let Some(number) = number_u64(object, "number") else {
        return Ok(None);
    };
    let Some(value) = member(object, "state") else {
        return Ok(None);
    };
    let Some(state) = state_of_value(alloc, value)? else {
        return Ok(None);
    };
    Ok(Some(Segment {
        config,
        number,
        state,
    }))
}

// Whether a value is that of the first line of a segment: whether they have one text.
fn is_value_of(alloc: Global, value: &Value, segment: &Segment) -> Result<bool, AllocError>
    requires { depth (view value.now) ≤ max_depth }
    ensures value { IfOk result (λ is. IsTrue is ↔ IsValueOf (view value.now) segment.now) }
    ensures lawful { OnOk result (IsLawful segment.now.config) }
    ensures fits { OnOk result (SegmentFits segment.now) }
{
    let written = value.to_string(alloc)?;
    let text = segment_object(alloc, segment)?;
    Ok(written.as_bytes() == text.as_slice())
}

// The segment whose first line has this value, with this object.
fn segment_of(alloc: Global, value: &Value, object: &Value) -> Result<Option<Segment>, AllocError>
    requires nests { depth (view value.now) ≤ max_depth }
    requires there { get (codes "segment") (view value.now) ≡ Some (view object.now) }
    ensures exact { IfOk result (λ found.
        (s : SegmentOf) → SegmentFits s → (found ≡ Some s) ↔ IsSegmentValue (view value.now) s) }
    ensures fits { IfOk result (λ found. IfSome found SegmentFits) }
{
    let Some(segment) = parts_of(alloc, object)? else {
        return Ok(None);
    };
    if segment.number < 2 {
        return Ok(None);
    }
    if fault_of(&segment.config, &segment.state).is_some() {
        return Ok(None);
    }
    if !is_value_of(alloc, value, &segment)? {
        return Ok(None);
    }
    Ok(Some(segment))
}

// The first segment, where a value is its opening.
fn first_of(value: &Value) -> Option<FirstLine>
    ensures is { result ≡ option_map First (opening_of (view value.now)) }
    ensures fits { IfSome result FirstFits }
{
    let config = opening_of(value)?;
    // Its numbers fit the types of their fields.
    let _written = config_of(&config);
    Some(FirstLine::First(config))
}

/// What a first line stands for, its newline not among its bytes: the first segment, whose configuration is read as
/// ever, or a later one. Nothing, where it has more than 8388608 bytes; where a configuration or a state is missing or
/// cannot be; and of a later segment where its number is below 2, its checksum is another than that of the state's text
/// without spaces, or a key stands in it that is none of these, or twice. The order of keys is free, and so are spaces
/// between them.
pub fn read_first_line(alloc: Global, line: &[u8]) -> Result<Option<FirstLine>, AllocError>
    ensures exact { IfOk result (λ found.
        (first : Stands) → FirstFits first → (found ≡ Some first) ↔ IsFirstLine line.now first) }
    ensures fits { IfOk result (λ found. IfSome found FirstFits) }
{
    if line.len() > MAX_FIRST_LINE {
        return Ok(None);
    }
    let Some(value) = value_in(alloc, line)? else {
        return Ok(None);
    };
    let Some(object) = value.get("segment") else {
        return Ok(first_of(&value));
    };
    if !has_unique_keys(alloc, line)? {
        return Ok(None);
    }
    match segment_of(alloc, &value, object)? {
        Some(segment) => Ok(Some(FirstLine::Later(segment))),
        None => Ok(None),
    }
}
