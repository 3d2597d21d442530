//! What the members of an object say of a call, and the call that they make.

ghost use Rattle.std.specs.Prelude.{◌≡◌, ◌^◌, option_and_then};
ghost use Rattle.json_fields.specs.Fields.{below};
ghost use Rattle.call_reading.specs.Seen.{nothing, seen_of, seen_admit, seen_remove, seen_amount, seen_ask, seen_heard};
ghost use Rattle.call_reading.specs.Seen.{seen_build, seen_skip, seen_status, seen_usage, seen_reserve, seen_header};
ghost use Rattle.call_reading.specs.Seen.{seen_replace, seen_change, seen_rest, seen_wake, seen_call, ranging_in};

use crate::call::usage_to;
use sched_calls::{Amount, Call, FlowSpec, Header, Usage};

/// What was found under each key that only a call of ranging may have, or a request in minislots. A number that is too
/// great is none.
#[derive(Clone, Copy)]
pub(crate) struct Ranging<'a> {
    pub(crate) usage: Option<&'a str>,
    pub(crate) slots: Option<u64>,
    pub(crate) ucd_count: Option<u8>,
    pub(crate) ranging_start: Option<u8>,
    pub(crate) ranging_end: Option<u8>,
    pub(crate) data_start: Option<u8>,
    pub(crate) data_end: Option<u8>,
}

/// What was found under each key that a call may have: the last of equal keys. The keys of ranging stand apart, so that
/// the other calls, which are most, pay little for them.
#[derive(Clone, Copy)]
pub(crate) struct Found<'a> {
    pub(crate) name: Option<&'a str>,
    pub(crate) sid: Option<u64>,
    pub(crate) receiver: Option<u64>,
    pub(crate) bytes: Option<u64>,
    pub(crate) heard: Option<u64>,
    pub(crate) upto: Option<u64>,
    pub(crate) time: Option<u64>,
    pub(crate) flow: Option<FlowSpec>,
    pub(crate) ranging: Option<Ranging<'a>>,
}

impl<'a> Found<'a> {
    pub(crate) fn nothing() -> Found<'a>
        ensures { seen_of result ≡ nothing }
    {
        Found {
            name: None,
            sid: None,
            receiver: None,
            bytes: None,
            heard: None,
            upto: None,
            time: None,
            flow: None,
            ranging: None,
        }
    }

    /// The minislots that were found.
    #[inline(always)]
    fn slots(&self) -> Option<u64>
        ensures { result ≡ (ranging_in self.now.ranging).slots }
    {
        match &self.ranging {
            Some(ranging) => ranging.slots,
            None => None,
        }
    }

    /// What was found of ranging so far.
    pub(crate) fn ranging_so_far(&self) -> Ranging<'a>
        ensures { result ≡ ranging_in self.now.ranging }
    {
        if let Some(ranging) = self.ranging {
            return ranging;
        }
        Ranging {
            usage: None,
            slots: None,
            ucd_count: None,
            ranging_start: None,
            ranging_end: None,
            data_start: None,
            data_end: None,
        }
    }
}

/// The number, where it fits.
pub(crate) fn to_u8(number: Option<u64>) -> Option<u8>
    ensures { result ≡ option_and_then (below (2 ^ 8)) number }
{
    u8::try_from(number?).ok()
}

// The number, where it fits.
fn to_u16(number: Option<u64>) -> Option<u16>
    ensures { result ≡ option_and_then (below (2 ^ 16)) number }
{
    u16::try_from(number?).ok()
}

// The number, where it fits.
fn to_u32(number: Option<u64>) -> Option<u32>
    ensures { result ≡ option_and_then (below (2 ^ 32)) number }
{
    u32::try_from(number?).ok()
}

// The number, which fits.
fn to_u64(number: Option<u64>) -> Option<u64>
    ensures { result ≡ option_and_then (below (2 ^ 64)) number }
{
    Some(number?)
}

#[tactic(auto, unfolding(crate::specs::Seen::seen_admit))]
fn admit(found: &Found<'_>) -> Option<Call>
    ensures { result ≡ seen_admit (seen_of found.now) }
{
    let (Some(sid), Some(flow)) = (to_u16(found.sid), found.flow) else {
        return None;
    };
    Some(Call::Admit(sid, flow))
}

/// The removal that the members make.
#[tactic(auto, unfolding(crate::specs::Seen::seen_remove))]
#[inline(always)]
pub(crate) fn remove(found: &Found<'_>) -> Option<Call>
    ensures { result ≡ seen_remove (seen_of found.now) }
{
    Some(Call::Remove(to_u16(found.sid)?))
}

// How much a request asks for: exactly one of its two members stands.
#[tactic(auto, unfolding(crate::specs::Seen::seen_amount))]
#[inline(always)]
fn amount(found: &Found<'_>) -> Option<Amount>
    ensures { result ≡ seen_amount (seen_of found.now) }
{
    match (found.bytes, found.slots()) {
        (bytes, None) => Some(Amount::Bytes(to_u32(bytes)?)),
        (None, slots) => Some(Amount::Slots(to_u32(slots)?)),
        (Some(_), Some(_)) => None,
    }
}

/// The request that the members make.
#[tactic(auto, unfolding(crate::specs::Seen::seen_ask))]
#[inline(always)]
pub(crate) fn ask(found: &Found<'_>) -> Option<Call>
    ensures { result ≡ seen_ask (seen_of found.now) }
{
    let (Some(receiver), Some(sid), Some(amount), Some(heard)) = (
        to_u8(found.receiver),
        to_u16(found.sid),
        amount(found),
        to_u64(found.heard),
    ) else {
        return None;
    };
    Some(Call::Ask {
        receiver,
        sid,
        amount,
        heard,
    })
}

/// The progress of a receiver that the members make.
#[tactic(auto, unfolding(crate::specs::Seen::seen_heard))]
#[inline(always)]
pub(crate) fn heard(found: &Found<'_>) -> Option<Call>
    ensures { result ≡ seen_heard (seen_of found.now) }
{
    let (Some(receiver), Some(upto)) = (to_u8(found.receiver), to_u64(found.upto)) else {
        return None;
    };
    Some(Call::Heard { receiver, upto })
}

/// The build that the members make.
#[tactic(auto, unfolding(crate::specs::Seen::seen_build))]
#[inline(always)]
pub(crate) fn build(found: &Found<'_>) -> Option<Call>
    ensures { result ≡ seen_build (seen_of found.now) }
{
    Some(Call::Build {
        now: to_u64(found.time)?,
    })
}

#[tactic(auto, unfolding(crate::specs::Seen::seen_skip))]
fn skip(found: &Found<'_>) -> Option<Call>
    ensures { result ≡ seen_skip (seen_of found.now) }
{
    Some(Call::Skip {
        now: to_u64(found.time)?,
    })
}

/// The question for a flow's bytes that the members make.
#[tactic(auto, unfolding(crate::specs::Seen::seen_status))]
#[inline(always)]
pub(crate) fn status(found: &Found<'_>) -> Option<Call>
    ensures { result ≡ seen_status (seen_of found.now) }
{
    Some(Call::Status(to_u16(found.sid)?))
}

// What an opportunity is used for: a SID stands beside each but `initial` and `quiet`.
#[tactic(auto, unfolding(crate::specs::Seen::seen_usage))]
fn usage(found: &Found<'_>) -> Option<Usage>
    ensures { result ≡ seen_usage (seen_of found.now) }
{
    match found.ranging_so_far().usage? {
        "initial" => Some(Usage::Initial),
        "quiet" => Some(Usage::Quiet),
        usage => usage_to(usage, to_u16(found.sid)?),
    }
}

#[tactic(auto, unfolding(crate::specs::Seen::seen_reserve))]
fn reserve(found: &Found<'_>) -> Option<Call>
    ensures { result ≡ seen_reserve (seen_of found.now) }
{
    let (Some(usage), Some(slots)) = (usage(found), to_u32(found.ranging_so_far().slots)) else {
        return None;
    };
    Some(Call::Reserve { usage, slots })
}

#[tactic(auto, unfolding(crate::specs::Seen::seen_header))]
fn header(found: &Found<'_>) -> Option<Call>
    ensures { result ≡ seen_header (seen_of found.now) }
{
    let ranging = found.ranging_so_far();
    Some(Call::Header(Header {
        ucd_count: ranging.ucd_count?,
        ranging_start: ranging.ranging_start?,
        ranging_end: ranging.ranging_end?,
        data_start: ranging.data_start?,
        data_end: ranging.data_end?,
    }))
}

#[tactic(auto, unfolding(crate::specs::Seen::seen_replace))]
fn replace(found: &Found<'_>) -> Option<Call>
    ensures { result ≡ seen_replace (seen_of found.now) }
{
    let (receiver, sid) = (to_u8(found.receiver)?, to_u16(found.sid)?);
    let (amount, heard) = (amount(found)?, to_u64(found.heard)?);
    Some(Call::Replace {
        receiver,
        sid,
        amount,
        heard,
    })
}

#[tactic(auto, unfolding(crate::specs::Seen::seen_change))]
fn change(found: &Found<'_>) -> Option<Call>
    ensures { result ≡ seen_change (seen_of found.now) }
{
    let (Some(sid), Some(flow)) = (to_u16(found.sid), found.flow) else {
        return None;
    };
    Some(Call::Change(sid, flow))
}

#[tactic(auto, unfolding(crate::specs::Seen::seen_rest))]
fn rest(found: &Found<'_>) -> Option<Call>
    ensures { result ≡ seen_rest (seen_of found.now) }
{
    Some(Call::Rest(to_u16(found.sid)?))
}

#[tactic(auto, unfolding(crate::specs::Seen::seen_wake))]
fn wake(found: &Found<'_>) -> Option<Call>
    ensures { result ≡ seen_wake (seen_of found.now) }
{
    Some(Call::Wake(to_u16(found.sid)?))
}

/// The call that the members make, by its name.
#[tactic(auto, unfolding(crate::specs::Seen::seen_call))]
pub(crate) fn made(found: &Found<'_>) -> Option<Call>
    ensures { result ≡ seen_call (seen_of found.now) }
{
    match found.name? {
        "admit" => admit(found),
        "remove" => remove(found),
        "ask" => ask(found),
        "heard" => heard(found),
        "build" => build(found),
        "skip" => skip(found),
        "status" => status(found),
        "reserve" => reserve(found),
        "header" => header(found),
        "replace" => replace(found),
        "change" => change(found),
        "rest" => rest(found),
        "wake" => wake(found),
        _ => None,
    }
}
