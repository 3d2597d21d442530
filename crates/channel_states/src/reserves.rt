//! The Reserves of a state.

ghost use Rattle.std.specs.Prelude.{◌≡◌, true, false};
ghost use Rattle.channel_states.specs.Possible.{is_sid_of_flow, has_sid, IsPossibleReserve, ArePossibleReserves};

use minislots::Checked;
use sched_calls::{MAX_RESERVES, ReserveState, Usage};

// The MAPs after which a Reserve that none of them met has lapsed.
const LAST_MAP: u8 = 64;

// Whether the Reserves may wait, in this order.
pub(crate) fn are_possible_reserves(config: &Checked, reserves: &[ReserveState]) -> bool
    ensures possible { result ≡ true → ArePossibleReserves config.now reserves.now }
    ensures impossible { result ≡ false → ArePossibleReserves config.now reserves.now → ⊥ }
{
    if reserves.len() > MAX_RESERVES {
        return false;
    }
    let mut most = LAST_MAP - 1;
    for reserve in reserves {
        if reserve.maps > most || !is_possible_reserve(config, reserve) {
            return false;
        }
        most = reserve.maps;
    }
    true
}

// Whether a Reserve may wait.
fn is_possible_reserve(config: &Checked, reserve: &ReserveState) -> bool
    ensures possible { result ≡ true → IsPossibleReserve config.now reserve.now }
    ensures impossible { result ≡ false → IsPossibleReserve config.now reserve.now → ⊥ }
{
    let slots = u64::from(reserve.opportunity.slots);
    has_sid(reserve.opportunity.usage)
        && 0 < slots
        && slots + u64::from(config.req_slots()) <= u64::from(config.frame())
        && reserve.maps < LAST_MAP
}

// Whether an opportunity of this usage goes to an SID that it may go to.
fn has_sid(usage: Usage) -> bool
    ensures { result ≡ has_sid usage }
{
    match usage {
        Usage::Initial | Usage::Quiet => true,
        Usage::InitialTo(sid) | Usage::Station(sid) | Usage::DataTo(sid) => is_sid_of_flow(sid),
        Usage::Request(sid) => {
            is_sid_of_flow(sid) || (15873 <= sid && sid <= 16127) || sid == 16383
        }
    }
}

// Whether a flow may have this SID.
pub(crate) fn is_sid_of_flow(sid: u16) -> bool
    ensures { result ≡ is_sid_of_flow sid }
{
    1 <= sid && sid <= 8191
}
