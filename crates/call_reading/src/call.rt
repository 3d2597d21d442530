//! One call of a script.

ghost use Rattle.std.specs.Prelude.{◌≡◌};
ghost use Rattle.call_reading.specs.Calls.{admit_call, remove_call, amount_of, ask_call, heard_call, build_call};
ghost use Rattle.call_reading.specs.Calls.{skip_call, status_call, usage_to, usage_of, reserve_call, header_call};
ghost use Rattle.call_reading.specs.Calls.{replace_call, change_call, rest_call, wake_call, call_of};

use super::flow::flow_of;
use json_fields::{Tree, member, number_u8, number_u16, number_u32, number_u64, text};
use sched_calls::{Amount, Call, Header, Usage};

#[tactic(auto, unfolding(crate::specs::Calls::admit_call))]
fn admit_call<T: Tree>(value: &T) -> Option<Call>
    ensures { result ≡ admit_call (T.shown value.now) }
{
    let (Some(sid), Some(flow)) = (
        number_u16(value, "sid"),
        member(value, "flow").and_then(flow_of),
    ) else {
        return None;
    };
    Some(Call::Admit(sid, flow))
}

#[tactic(auto, unfolding(crate::specs::Calls::remove_call))]
fn remove_call<T: Tree>(value: &T) -> Option<Call>
    ensures { result ≡ remove_call (T.shown value.now) }
{
    Some(Call::Remove(number_u16(value, "sid")?))
}

// How much a request asks for: exactly one of its two members stands.
#[tactic(auto, unfolding(crate::specs::Calls::amount_of))]
fn amount_of<T: Tree>(value: &T) -> Option<Amount>
    ensures { result ≡ amount_of (T.shown value.now) }
{
    match (member(value, "bytes"), member(value, "slots")) {
        (_, None) => Some(Amount::Bytes(number_u32(value, "bytes")?)),
        (None, Some(_)) => Some(Amount::Slots(number_u32(value, "slots")?)),
        (Some(_), Some(_)) => None,
    }
}

#[tactic(auto, unfolding(crate::specs::Calls::ask_call))]
fn ask_call<T: Tree>(value: &T) -> Option<Call>
    ensures { result ≡ ask_call (T.shown value.now) }
{
    let (Some(receiver), Some(sid), Some(amount), Some(heard)) = (
        number_u8(value, "receiver"),
        number_u16(value, "sid"),
        amount_of(value),
        number_u64(value, "heard"),
    ) else {
        return None;
    };
    Some(Call::Ask {
        receiver,
        sid,
        amount,
        heard,
    })
}

#[tactic(auto, unfolding(crate::specs::Calls::heard_call))]
fn heard_call<T: Tree>(value: &T) -> Option<Call>
    ensures { result ≡ heard_call (T.shown value.now) }
{
    let (Some(receiver), Some(upto)) = (number_u8(value, "receiver"), number_u64(value, "upto"))
    else {
        return None;
    };
    Some(Call::Heard { receiver, upto })
}

#[tactic(auto, unfolding(crate::specs::Calls::build_call))]
fn build_call<T: Tree>(value: &T) -> Option<Call>
    ensures { result ≡ build_call (T.shown value.now) }
{
    Some(Call::Build {
        now: number_u64(value, "now")?,
    })
}

#[tactic(auto, unfolding(crate::specs::Calls::skip_call))]
fn skip_call<T: Tree>(value: &T) -> Option<Call>
    ensures { result ≡ skip_call (T.shown value.now) }
{
    Some(Call::Skip {
        now: number_u64(value, "now")?,
    })
}

#[tactic(auto, unfolding(crate::specs::Calls::status_call))]
fn status_call<T: Tree>(value: &T) -> Option<Call>
    ensures { result ≡ status_call (T.shown value.now) }
{
    Some(Call::Status(number_u16(value, "sid")?))
}

/// What an opportunity to a SID is used for.
pub(crate) fn usage_to(usage: &str, sid: u16) -> Option<Usage>
    ensures { result ≡ usage_to usage.now sid }
{
    match usage {
        "initial_to" => Some(Usage::InitialTo(sid)),
        "station" => Some(Usage::Station(sid)),
        "request" => Some(Usage::Request(sid)),
        "data" => Some(Usage::DataTo(sid)),
        _ => None,
    }
}

// What an opportunity is used for: a SID stands beside each but `initial` and `quiet`.
#[tactic(auto, unfolding(crate::specs::Calls::usage_of))]
fn usage_of<T: Tree>(value: &T) -> Option<Usage>
    ensures { result ≡ usage_of (T.shown value.now) }
{
    match text(value, "usage")? {
        "initial" => Some(Usage::Initial),
        "quiet" => Some(Usage::Quiet),
        usage => usage_to(usage, number_u16(value, "sid")?),
    }
}

#[tactic(auto, unfolding(crate::specs::Calls::reserve_call))]
fn reserve_call<T: Tree>(value: &T) -> Option<Call>
    ensures { result ≡ reserve_call (T.shown value.now) }
{
    let (Some(usage), Some(slots)) = (usage_of(value), number_u32(value, "slots")) else {
        return None;
    };
    Some(Call::Reserve { usage, slots })
}

#[tactic(auto, unfolding(crate::specs::Calls::header_call))]
fn header_call<T: Tree>(value: &T) -> Option<Call>
    ensures { result ≡ header_call (T.shown value.now) }
{
    Some(Call::Header(Header {
        ucd_count: number_u8(value, "ucd_count")?,
        ranging_start: number_u8(value, "ranging_start")?,
        ranging_end: number_u8(value, "ranging_end")?,
        data_start: number_u8(value, "data_start")?,
        data_end: number_u8(value, "data_end")?,
    }))
}

#[tactic(auto, unfolding(crate::specs::Calls::replace_call))]
fn replace_call<T: Tree>(value: &T) -> Option<Call>
    ensures { result ≡ replace_call (T.shown value.now) }
{
    let (Some(receiver), Some(sid), Some(amount), Some(heard)) = (
        number_u8(value, "receiver"),
        number_u16(value, "sid"),
        amount_of(value),
        number_u64(value, "heard"),
    ) else {
        return None;
    };
    Some(Call::Replace {
        receiver,
        sid,
        amount,
        heard,
    })
}

#[tactic(auto, unfolding(crate::specs::Calls::change_call))]
fn change_call<T: Tree>(value: &T) -> Option<Call>
    ensures { result ≡ change_call (T.shown value.now) }
{
    let (Some(sid), Some(flow)) = (
        number_u16(value, "sid"),
        member(value, "flow").and_then(flow_of),
    ) else {
        return None;
    };
    Some(Call::Change(sid, flow))
}

#[tactic(auto, unfolding(crate::specs::Calls::rest_call))]
fn rest_call<T: Tree>(value: &T) -> Option<Call>
    ensures { result ≡ rest_call (T.shown value.now) }
{
    Some(Call::Rest(number_u16(value, "sid")?))
}

#[tactic(auto, unfolding(crate::specs::Calls::wake_call))]
fn wake_call<T: Tree>(value: &T) -> Option<Call>
    ensures { result ≡ wake_call (T.shown value.now) }
{
    Some(Call::Wake(number_u16(value, "sid")?))
}

/// The call that an object stands for, by its name.
#[tactic(auto, unfolding(crate::specs::Calls::call_of))]
pub fn call_of<T: Tree>(value: &T) -> Option<Call>
    ensures { result ≡ call_of (T.shown value.now) }
{
    match text(value, "call")? {
        "admit" => admit_call(value),
        "remove" => remove_call(value),
        "ask" => ask_call(value),
        "heard" => heard_call(value),
        "build" => build_call(value),
        "skip" => skip_call(value),
        "status" => status_call(value),
        "reserve" => reserve_call(value),
        "header" => header_call(value),
        "replace" => replace_call(value),
        "change" => change_call(value),
        "rest" => rest_call(value),
        "wake" => wake_call(value),
        _ => None,
    }
}
