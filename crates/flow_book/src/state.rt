//! What the state of a scheduler tells of a live flow, but for its place.

ghost use Rattle.std.specs.Prelude.{◌≡◌, ℕ, ◌<◌, Option, Some, option_map, length, slice_get};
ghost use Rattle.minislots.specs.declared.config.Config.{Config};
ghost use Rattle.flow_book.specs.Entry.{live, IsTurn, KeepsSums};
ghost use Rattle.flow_book.specs.FlowState.{flow_state};

use crate::book::Book;
use crate::flow::{Flow, RANKS, SIDS};
use sched_calls::FlowState;

// Where the last data grant of a flow with this turn starts, if it has one.
fn last_start(turn: u128) -> Option<u64>
    requires { (rank : ℕ) × (last : Option ℕ) × (sid : ℕ) × IsTurn rank last sid turn }
    ensures { (rank sid : ℕ) (last : Option ℕ) → IsTurn rank last sid turn → result ≡ last }
{
    let behind = turn % RANKS / SIDS;
    if behind == 0 {
        return None;
    }
    Some((behind - 1) as u64)
}

impl Flow {
    // The flow as the state of a scheduler tells it, but for its place.
    fn state(&self) -> FlowState
        requires { (c : Config) × KeepsSums c self.now }
        ensures { (c : Config) → KeepsSums c self.now → result ≡ flow_state c (live self.now) }
    {
        let last = last_start(self.turn);
        let slot = last.unwrap_or(0);
        FlowState {
            sid: self.sid,
            spec: self.spec,
            asked: self.asked,
            granted: self.granted,
            last,
            sustained: self.limits.sustained.state(slot),
            peak: self.limits.peak.state(slot),
            reserved: self.limits.reserved.state(slot),
            batches: self.batches.state(self.asked, self.granted),
            place: None,
        }
    }
}

impl Book {
    /// A live flow as the state of a scheduler tells it, but for its place, by its own place here, from 0, in the
    /// order of SIDs. Takes no memory.
    pub fn state_at(&self, index: usize) -> FlowState
        requires { index < length self.now.flows }
        ensures { option_map (flow_state self.now.config) (slice_get self.now.flows index) ≡ Some result }
    {
        self.flows.at(index).state()
    }
}
