//! The configuration that a JSON object stands for.

ghost use Rattle.std.specs.Prelude.{◌≡◌, codes, option_and_then};
ghost use Rattle.serde_json.specs.Find.{get};
ghost use Rattle.json_fields.specs.Fields.{slots_of, sizes_of, counts_of, windows_of, limits_of, idles_of};
ghost use Rattle.json_fields.specs.Fields.{config_of};

use super::bursts::bursts_of;
use super::field::{member, number_u8, number_u8_or, number_u32, number_u32_or, number_u64};
use super::tree::Tree;
use minislots::Config;

// The minislots, and the frames that they make.
#[tactic(auto, unfolding(crate::specs::Fields::slots_of))]
fn slots_of<T: Tree>(value: &T) -> Option<(u32, u32, u32)>
    ensures { result ≡ slots_of (T.shown value.now) }
{
    let (Some(ticks), Some(frame), Some(cycle)) = (
        number_u32(value, "ticks"),
        number_u32(value, "frame"),
        number_u32(value, "cycle"),
    ) else {
        return None;
    };
    Some((ticks, frame, cycle))
}

// The sizes of regions and grants, and the time ahead.
#[tactic(auto, unfolding(crate::specs::Fields::sizes_of))]
fn sizes_of<T: Tree>(value: &T) -> Option<(u32, u32, u32, u32, u32, u32)>
    ensures { result ≡ sizes_of (T.shown value.now) }
{
    let (
        Some(req_slots),
        Some(poll_slots),
        Some(lead),
        Some(short_max),
        Some(quantum),
        Some(grant_cap),
    ) = (
        number_u32(value, "req_slots"),
        number_u32(value, "poll_slots"),
        number_u32(value, "lead"),
        number_u32(value, "short_max"),
        number_u32(value, "quantum"),
        number_u32(value, "grant_cap"),
    ) else {
        return None;
    };
    Some((req_slots, poll_slots, lead, short_max, quantum, grant_cap))
}

// The receivers, the calls, the first minislot, the channel and the UCD count.
#[tactic(auto, unfolding(crate::specs::Fields::counts_of))]
fn counts_of<T: Tree>(value: &T) -> Option<(u8, u32, u64, u8, u8)>
    ensures { result ≡ counts_of (T.shown value.now) }
{
    let (Some(receivers), Some(calls), Some(start), Some(channel), Some(ucd_count)) = (
        number_u8(value, "receivers"),
        number_u32(value, "calls"),
        number_u64(value, "start"),
        number_u8(value, "channel"),
        number_u8(value, "ucd_count"),
    ) else {
        return None;
    };
    Some((receivers, calls, start, channel, ucd_count))
}

// The first and the last backoff window, under these keys.
#[tactic(auto, unfolding(crate::specs::Fields::windows_of))]
fn windows_of<T: Tree>(value: &T, first: &str, last: &str) -> Option<(u8, u8)>
    ensures { result ≡ windows_of first.now last.now (T.shown value.now) }
{
    Some((number_u8(value, first)?, number_u8(value, last)?))
}

// The most live flows, pending grants of a MAP, and grants and polls of an interval.
#[tactic(auto, unfolding(crate::specs::Fields::limits_of))]
fn limits_of<T: Tree>(value: &T) -> Option<(u32, u32, u32)>
    ensures { result ≡ limits_of (T.shown value.now) }
{
    Some((
        number_u32_or(value, "flows", 64)?,
        number_u32_or(value, "pending", 64)?,
        number_u32_or(value, "periodic", 40)?,
    ))
}

// Whether idles are open to requests, and the minislots for which a new UCD settles.
#[tactic(auto, unfolding(crate::specs::Fields::idles_of))]
fn idles_of<T: Tree>(value: &T) -> Option<(u8, u32)>
    ensures { result ≡ idles_of (T.shown value.now) }
{
    Some((
        number_u8_or(value, "open_idle", 0)?,
        number_u32_or(value, "settle", 0)?,
    ))
}

/// The configuration that an object stands for: each field is there, and fits its type. The physical layer is 0 where
/// it is missing, there are at most 64 flows, 64 pending grants and 40 periodic grants where those are, and idles are
/// not open, and nothing settles, where those are. Where there are burst descriptors, nobody reads the bytes of a
/// minislot and the overhead.
#[tactic(auto, unfolding(crate::specs::Fields::config_of))]
pub fn config_of<T: Tree>(value: &T) -> Option<Config>
    ensures { result ≡ config_of (T.shown value.now) }
{
    let (ticks, frame, cycle) = slots_of(value)?;
    let bursts = bursts_of(value)?;
    let (req_slots, poll_slots, lead, short_max, quantum, grant_cap) = sizes_of(value)?;
    let (receivers, calls, start, channel, ucd_count) = counts_of(value)?;
    let (ranging_start, ranging_end) = windows_of(value, "ranging_start", "ranging_end")?;
    let (data_start, data_end) = windows_of(value, "data_start", "data_end")?;
    let phy = number_u8_or(value, "phy", 0)?;
    let (flows, pending, periodic) = limits_of(value)?;
    let (open_idle, settle) = idles_of(value)?;
    Some(Config {
        ticks,
        bursts,
        frame,
        cycle,
        req_slots,
        poll_slots,
        lead,
        short_max,
        quantum,
        grant_cap,
        receivers,
        calls,
        start,
        ranging_start,
        ranging_end,
        data_start,
        data_end,
        channel,
        ucd_count,
        phy,
        flows,
        pending,
        periodic,
        open_idle,
        settle,
    })
}

/// The configuration of a document: the object under `config`.
pub fn config_in<T: Tree>(document: &T) -> Option<Config>
    ensures { result ≡ option_and_then config_of (get (codes "config") (T.shown document.now)) }
{
    config_of(member(document, "config")?)
}
