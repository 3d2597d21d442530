//! How many grants and polls the placed flows have in each frame of the cycle: no frame has more than [`MAX_SPOTS`].

ghost use Rattle.std.specs.Prelude.{◌≡◌, ℕ, ◌<◌, get_or, length, true, false, []};
ghost use Rattle.minislots.specs.declared.config.Config.{Config};
ghost use Rattle.minislots.specs.Config.{IsLawful};
ghost use Rattle.periodic.specs.Placement.{spots_of};
ghost use Rattle.periodic.specs.Counts.{AreCounts, MayBeCounted, AreCounted, MayCount};
ghost use Rattle.periodic.specs.Fields.{placed_of, IsSoundFlow};
ghost use Rattle.periodic.specs.Search.{CanBeSought, HasRoomAt};

use crate::search::Wanted;
use crate::spots::PlacedFlow;
use crate::{MAX_CYCLE, MAX_SPOTS};
use minislots::Checked;

// For each frame of the cycle the starts of the placed flows.
#[derive(Clone, Copy)]
pub(crate) struct Counts {
    pub(crate) starts: [usize; MAX_CYCLE],
}

// The count of a frame with these starts more, or without them.
fn counted(count: usize, starts: usize, taken: bool) -> usize
    requires { MayBeCounted taken count starts }
    ensures { AreCounted taken count starts result }
{
    if taken {
        count + starts
    } else {
        count - starts
    }
}

impl Counts {
    // No flow is placed.
    pub(crate) fn open() -> Self
        ensures { (c : Config) → IsLawful c → AreCounts c [] result.starts }
    {
        Counts {
            starts: [0; MAX_CYCLE],
        }
    }

    // Whether each frame of this phase has room for the starts that are wanted.
    pub(crate) fn has_room(&self, config: &Checked, wanted: Wanted, phase: u64) -> bool
        requires sought { CanBeSought config.now wanted }
        requires phase { phase < wanted.interval }
        ensures room { result ≡ true → HasRoomAt config.now self.now.starts wanted phase }
        ensures full { result ≡ false → HasRoomAt config.now self.now.starts wanted phase → ⊥ }
    {
        for index in 0..u64::from(config.cycle()) / wanted.interval {
            let place = (phase + index * wanted.interval) as usize;
            if self.starts[place] > MAX_SPOTS - wanted.grants {
                return false;
            }
        }
        true
    }

    // Counts the starts of a flow in each frame of the cycle, as more or as fewer.
    pub(crate) fn count(&mut self, config: &Checked, flow: &PlacedFlow, taken: bool)
        requires sound { IsSoundFlow config.now flow.now }
        requires may { MayCount config.now (placed_of flow.now) taken self.old.starts }
        ensures { (place : ℕ) → place < config.now.cycle
            → AreCounted taken (get_or self.old.starts place 0)
            (length (spots_of config.now place (placed_of flow.now))) (get_or self.new.starts place 0) }
    {
        for index in 0..u64::from(config.cycle()) / flow.interval {
            let place = (flow.phase + index * flow.interval) as usize;
            self.starts[place] = counted(self.starts[place], flow.grants, taken);
        }
    }
}
