//! Whether two replies are the same.

ghost use Rattle.std.specs.Prelude.{◌≡◌, ◌≢◌, true, false, IfSome, IfNone};
ghost use Rattle.sched_history.specs.Audit.{flat_of, fixed_fields};

use map_codec::{Element, WireMap};
use sched_calls::{FrameMap, Placement, Refusal, Reply};

// A reply without lists.
#[derive(Clone, Copy)]
pub(crate) enum FlatReply {
    Admitted,
    Changed,
    Removed,
    Taken,
    Noted,
    Reserved,
    Skipped(u64),
    Flow(u64, u64, u64),
    Refused(Refusal),
}

// The fixed fields of a MAP's payload.
#[derive(Clone, Copy, PartialEq, Eq)]
pub(crate) struct FixedFields {
    channel: u8,
    ucd_count: u8,
    reserved: u8,
    alloc_start: u32,
    ack: u32,
    ranging_start: u8,
    ranging_end: u8,
    data_start: u8,
    data_end: u8,
}

// The reply, where it has no lists.
fn flat_of(reply: &Reply) -> Option<FlatReply>
    ensures { result ≡ flat_of reply.now }
{
    match reply {
        Reply::Admitted(None) => Some(FlatReply::Admitted),
        Reply::Admitted(Some(_)) => None,
        Reply::Changed(None) => Some(FlatReply::Changed),
        Reply::Changed(Some(_)) => None,
        Reply::Removed => Some(FlatReply::Removed),
        Reply::Taken => Some(FlatReply::Taken),
        Reply::Noted => Some(FlatReply::Noted),
        Reply::Reserved => Some(FlatReply::Reserved),
        Reply::Built(_) => None,
        Reply::Skipped(next) => Some(FlatReply::Skipped(*next)),
        Reply::Flow {
            asked,
            granted,
            outstanding,
        } => Some(FlatReply::Flow(*asked, *granted, *outstanding)),
        Reply::Refused(refusal) => Some(FlatReply::Refused(*refusal)),
    }
}

// Whether two replies without lists are the same.
fn is_same_reply(reply: FlatReply, other: FlatReply) -> bool
    ensures same { result ≡ true → reply ≡ other }
    ensures apart { result ≡ false → reply ≢ other }
{
    match reply {
        FlatReply::Admitted => matches!(other, FlatReply::Admitted),
        FlatReply::Changed => matches!(other, FlatReply::Changed),
        FlatReply::Removed => matches!(other, FlatReply::Removed),
        FlatReply::Taken => matches!(other, FlatReply::Taken),
        FlatReply::Noted => matches!(other, FlatReply::Noted),
        FlatReply::Reserved => matches!(other, FlatReply::Reserved),
        FlatReply::Skipped(next) => matches!(other, FlatReply::Skipped(it) if it == next),
        FlatReply::Flow(asked, granted, outstanding) => {
            matches!(other, FlatReply::Flow(a, g, o) if a == asked && g == granted && o == outstanding)
        }
        FlatReply::Refused(refusal) => matches!(other, FlatReply::Refused(it) if it == refusal),
    }
}

// Whether two replies have no lists and are the same, or both have lists.
pub(crate) fn is_same_flat(reply: &Reply, other: &Reply) -> bool
    ensures same { result ≡ true → flat_of reply.now ≡ flat_of other.now }
    ensures apart { result ≡ false → flat_of reply.now ≢ flat_of other.now }
{
    let Some(told) = flat_of(reply) else {
        return flat_of(other).is_none();
    };
    let Some(same) = flat_of(other) else {
        return false;
    };
    is_same_reply(told, same)
}

// Whether this is that refusal.
pub(crate) fn is_refused(reply: &Reply, refusal: Refusal) -> bool
    ensures refused { result ≡ true → reply.now ≡ Reply.Refused refusal }
    ensures other { result ≡ false → reply.now ≢ Reply.Refused refusal }
{
    match reply {
        Reply::Refused(other) => *other == refusal,
        _ => false,
    }
}

// The placement of an admission.
pub(crate) fn placement_in(reply: &Reply) -> Option<&Placement>
    ensures found { IfSome result (λ p. reply.now ≡ Reply.Admitted (Some p.now)) }
    ensures absent { IfNone result ((p : Placement) → reply.now ≢ Reply.Admitted (Some p)) }
{
    match reply {
        Reply::Admitted(Some(placement)) => Some(placement),
        _ => None,
    }
}

// The placement of a change.
pub(crate) fn changed_placement_in(reply: &Reply) -> Option<&Placement>
    ensures found { IfSome result (λ p. reply.now ≡ Reply.Changed (Some p.now)) }
    ensures absent { IfNone result ((p : Placement) → reply.now ≢ Reply.Changed (Some p)) }
{
    match reply {
        Reply::Changed(Some(placement)) => Some(placement),
        _ => None,
    }
}

// The MAP of a build.
pub(crate) fn map_in(reply: &Reply) -> Option<&FrameMap>
    ensures found { IfSome result (λ m. reply.now ≡ Reply.Built m.now) }
    ensures absent { IfNone result ((m : FrameMap) → reply.now ≢ Reply.Built m) }
{
    match reply {
        Reply::Built(map) => Some(map),
        _ => None,
    }
}

// The fixed fields.
fn fixed_part(wire: &WireMap) -> FixedFields
    ensures { result ≡ fixed_fields wire.now }
{
    FixedFields {
        channel: wire.channel,
        ucd_count: wire.ucd_count,
        reserved: wire.reserved,
        alloc_start: wire.alloc_start,
        ack: wire.ack,
        ranging_start: wire.ranging_start,
        ranging_end: wire.ranging_end,
        data_start: wire.data_start,
        data_end: wire.data_end,
    }
}

// Whether two MAPs have the same fixed fields.
fn has_same_fields(wire: &WireMap, other: &WireMap) -> bool
    ensures same { result ≡ true → fixed_fields wire.now ≡ fixed_fields other.now }
    ensures apart { result ≡ false → fixed_fields wire.now ≢ fixed_fields other.now }
{
    fixed_part(wire) == fixed_part(other)
}

// Whether two elements are the same.
fn is_same_element(element: Element, other: Element) -> bool
    ensures same { result ≡ true → element ≡ other }
    ensures apart { result ≡ false → element ≢ other }
{
    element == other
}

// Whether two lists have the same elements.
fn are_same_elements(elements: &[Element], others: &[Element]) -> bool
    ensures same { result ≡ true → elements.now ≡ others.now }
    ensures apart { result ≡ false → elements.now ≢ others.now }
{
    if elements.len() != others.len() {
        return false;
    }
    for index in 0..elements.len() {
        if !is_same_element(elements[index], others[index]) {
            return false;
        }
    }
    true
}

// Whether two MAPs have the same payload.
#[tactic(auto, using(crate::proofs::state::SameMaps::same_wire))]
fn is_same_wire(wire: &WireMap, other: &WireMap) -> bool
    ensures same { result ≡ true → other.now ≡ wire.now }
    ensures apart { result ≡ false → other.now ≢ wire.now }
{
    has_same_fields(wire, other)
        && are_same_elements(wire.elements.as_slice(), other.elements.as_slice())
}

// Whether two MAPs are the same.
pub(crate) fn is_same_map(map: &FrameMap, other: &FrameMap) -> bool
    ensures same { result ≡ true → other.now ≡ map.now }
    ensures apart { result ≡ false → other.now ≢ map.now }
{
    map.start == other.start
        && map.ack == other.ack
        && map.bytes.as_slice() == other.bytes.as_slice()
        && is_same_wire(&map.wire, &other.wire)
}
