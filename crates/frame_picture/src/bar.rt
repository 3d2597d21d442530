//! The bars of a MAP: what is drawn of its allocations, and where.

ghost use Rattle.std.specs.Prelude.{◌≡◌, ◌+◌, ◌<◌, ◌≤◌, length};
ghost use Rattle.frame_picture.specs.Bar.{bar_with, is_plain_grant, StandsAtItsSlots};

use map_codec::Element;
use map_drawing::{Allocation, ElementUsage, allocation_at};

/// What is drawn of an allocation.
#[derive(Clone, Copy)]
pub struct Bar {
    /// The allocation.
    pub allocation: Allocation,
    /// What it is for, as the MAP tells it.
    pub usage: ElementUsage,
    /// Whether it is a grant of an unsolicited flow where the MAP tells no more than that it is a short or a long one.
    pub unsolicited: bool,
    /// Whether an opportunity that was reserved is met there, whatever the MAP tells.
    pub met: bool,
    /// Where it begins: so many units from the start of its row.
    pub x: u32,
    /// How many units it is wide.
    pub width: u32,
    /// The bytes of the requests that it grants.
    pub bytes: u32,
}

// Whether the usage code is one of a channel without Advanced PHY for all grants, unsolicited ones among them.
#[tactic(auto, unfolding(crate::specs::Bar::is_plain_grant))]
fn is_plain_grant(usage: ElementUsage) -> bool
    ensures { result ≡ is_plain_grant usage }
{
    matches!(usage, ElementUsage::ShortGrant | ElementUsage::LongGrant)
}

/// The bar of the element at a place before another one, among the elements of a MAP with these byte counts, where the
/// flow of its SID is unsolicited or not, and an opportunity is met or not.
pub fn bar_with(
    units: u32,
    elements: &[Element],
    bytes: &[u32],
    i: usize,
    unsolicited: bool,
    met: bool,
) -> Bar
    requires inside { i + 1 < length elements.now }
    requires narrow { units ≤ 1024 }
    ensures { result ≡ bar_with units elements.now bytes.now i unsolicited met }
{
    let allocation = allocation_at(elements, i);
    let usage = ElementUsage::of(allocation.sid, allocation.iuc);
    Bar {
        allocation,
        usage,
        unsolicited: !met && unsolicited && is_plain_grant(usage),
        met,
        x: units * u32::from(allocation.offset),
        width: units * u32::from(allocation.length),
        bytes: bytes.get(i).copied().unwrap_or(0),
    }
}

/// A minislot stands under the bar of the allocation that has it, and under no other.
pub fn every_bar()
    ensures { StandsAtItsSlots }
{}
