//! What lies on a tray.
ghost use Rattle.std.specs.Prelude.{◌≡◌};

use std::marker::Model;
use std::mem::ManuallyDrop;

/// What was left, or what answers it.
pub enum Slip<L, B> {
    Left(L),
    Back(B),
}

/// A slip that lies on a tray. It may hold what has no `Drop`. A tray has one, so that it goes with its memory: a slip
/// that was never taken back would be let go too, and nobody who takes back what he left lets that happen.
#[derive(Drop)]
pub struct Kept<L, B> {
    slip: ManuallyDrop<Slip<L, B>>,
}

impl<L, B> Model for Kept<L, B> {
    ghost use Rattle.std.specs.Mem.{manually_drop_value};
    ghost use Rattle.call_queue.specs.declared.slip.Slip.{Slip};

    ghost Value = { Slip L B };

    ghost view = { λ k. manually_drop_value k.slip };
}

impl<L, B> Kept<L, B> {
    /// The slip, as it lies on a tray.
    pub fn of(slip: Slip<L, B>) -> Kept<L, B>
        ensures { result ≡ slip }
    {
        // All that is asked is that it is taken out again, by `into_slip`.
        let slip = unsafe { ManuallyDrop::new_unchecked(slip) };
        Kept { slip }
    }

    /// The slip itself.
    pub fn into_slip(self) -> Slip<L, B>
        ensures { result ≡ self }
    {
        let Kept { slip } = self;
        ManuallyDrop::into_inner(slip)
    }
}
