//! The kinds of allocations, of which contracts of a MAP speak. What each is on the wire stands here and nowhere else.

ghost use Rattle.std.specs.Prelude.{◌≡◌};
ghost use Rattle.map_build.specs.Purpose.{is_open, sid_for, iuc_for, kind_of, HasUsage};

use crate::usage_codes::{data_iuc, full_iuc, long_iuc, unsolicited_iuc};
use map_codec::iuc;
use minislots::Checked;
use sched_calls::Usage;

/// The SID of all modems.
pub(crate) const BROADCAST: u16 = 0x3fff;

/// The SID of none.
pub(crate) const NOBODY: u16 = 0;

/// What an allocation is for.
#[derive(Clone, Copy, Debug)]
pub enum Purpose {
    /// A poll: the polled flow of this SID may request.
    Poll(u16),
    /// A grant of the unsolicited flow of this SID, at its place in the cycle: the SID, and then the bytes.
    UnsolicitedGrant(u16, u32),
    /// The waiting opportunity at this place, and what it is used for.
    Offer(usize, Usage),
    /// A grant for what the flow of this SID asked: the SID, and then the bytes.
    DataGrant(u16, u32),
    /// Nobody has them: all modems may request where it is open, and else nobody sends.
    Idle,
}

/// Minislots of a frame that stand side by side, and what they are for.
#[derive(Clone, Copy, Debug)]
pub struct Allocation {
    /// The first of them, from the frame's start.
    pub offset: u16,
    /// How many they are.
    pub slots: u16,
    /// What they are for.
    pub purpose: Purpose,
}

/// What the element of an allocation says beside its offset, and the bytes that are told beside the element.
#[derive(Clone, Copy, Debug)]
pub struct Kind {
    /// Whom it is for.
    pub sid: u16,
    /// The usage code.
    pub iuc: u8,
    /// The bytes of a data grant, else 0.
    pub bytes: u32,
}

/// An allocation, and where it is a data grant whether it is a short one, if that is known.
#[derive(Clone, Copy, Debug)]
pub(crate) struct Chosen {
    pub(crate) allocation: Allocation,
    pub(crate) is_short: Option<bool>,
}

// Whether an idle of so many minislots is open to the requests of all modems.
fn is_open(config: &Checked, slots: u16) -> bool
    ensures { result ≡ is_open config.now slots }
{
    config.open_idle() == 1 && config.poll_slots() <= u32::from(slots)
}

// The SID that an opportunity goes to.
fn sid_for(usage: Usage) -> u16
    ensures { result ≡ sid_for usage }
{
    match usage {
        Usage::Initial => BROADCAST,
        Usage::Quiet => NOBODY,
        Usage::InitialTo(sid) | Usage::Station(sid) | Usage::Request(sid) | Usage::DataTo(sid) =>
            sid,
    }
}

// The usage code of an opportunity of so many minislots.
fn iuc_for(config: &Checked, slots: u16, usage: Usage) -> u8
    ensures { result ≡ iuc_for config.now slots usage }
{
    match usage {
        Usage::Initial | Usage::InitialTo(_) => iuc::INITIAL_MAINTENANCE,
        Usage::Station(_) => iuc::STATION_MAINTENANCE,
        Usage::Request(_) => iuc::REQUEST,
        Usage::Quiet => long_iuc(config),
        Usage::DataTo(_) => full_iuc(config, slots),
    }
}

impl Purpose {
    /// The element of so many minislots for this purpose, where it may be known whether it is a short data grant.
    #[inline(always)]
    pub(crate) fn kind(self, slots: u16, config: &Checked, is_short: Option<bool>) -> Kind
        requires { HasUsage config.now is_short self }
        ensures { result ≡ kind_of config.now slots self }
    {
        let (sid, iuc, bytes) = match self {
            Purpose::Poll(sid) => (sid, iuc::REQUEST, 0),
            Purpose::UnsolicitedGrant(sid, size) => (sid, unsolicited_iuc(config, size), 0),
            Purpose::Offer(_, usage) => (sid_for(usage), iuc_for(config, slots, usage), 0),
            Purpose::DataGrant(sid, bytes) => {
                let is_short = match is_short {
                    Some(is_short) => is_short,
                    None => config.grant_size(bytes).is_short,
                };
                (sid, data_iuc(config, is_short), bytes)
            },
            Purpose::Idle if is_open(config, slots) => (BROADCAST, iuc::REQUEST, 0),
            Purpose::Idle => (NOBODY, long_iuc(config), 0),
        };
        Kind { sid, iuc, bytes }
    }
}
