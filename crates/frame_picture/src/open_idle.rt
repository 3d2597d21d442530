//! Idles that are open to requests.

ghost use Rattle.std.specs.Prelude.{◌≡◌};
ghost use Rattle.frame_picture.specs.OpenIdle.{is_open_idle};

use map_codec::iuc;
use map_drawing::{ALL_MODEMS, Allocation};

/// Whether an allocation is an open idle: all modems may ask there, and it is not the request region, which begins a
/// frame.
#[tactic(auto, unfolding(crate::specs::OpenIdle::is_open_idle))]
pub fn is_open_idle(allocation: Allocation) -> bool
    ensures { result ≡ is_open_idle allocation }
{
    allocation.iuc == iuc::REQUEST && allocation.sid == ALL_MODEMS && allocation.offset > 0
}
