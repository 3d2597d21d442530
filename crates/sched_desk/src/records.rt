//! What a desk may have: a scheduler with its press, or one that publishes to nobody.
ghost use Rattle.std.specs.Prelude.{◌≡◌, ◌≤◌, ◌↔◌, [], length, vec_capacity, IfOk, IfErr, OnOk, OnErr, IsOk};
ghost use Rattle.std.specs.List.{AllByRecursion};
ghost use Rattle.sched_history.specs.Machine.{kept_of};
ghost use Rattle.sched_calls.specs.Reply.{IsEncodable};
ghost use Rattle.sched_desk.specs.Desk.{Recording, alone};

use sched_history::{Entry, HandedOver, Scheduler};

/// What a desk has: a scheduler that records calls, with the press that publishes its MAPs, or with none.
pub trait Records {
    // The scheduler, and its press.
    ghost recording: { Self → Recording };

    /// The scheduler.
    fn scheduler(&self) -> &Scheduler
        ensures { result.now ≡ (recording self.now).machine };

    /// Hands over the entries that are kept, in exchange for an empty list with room for as many as the configuration
    /// allows.
    fn hand_over(&mut self, room: Vec<Entry>) -> Result<HandedOver, Vec<Entry>>
        ensures entries { IfOk result
            (λ given. given.entries.items ≡ kept_of (recording self.old).machine) }
        ensures first { IfOk result (λ given. given.first ≡ (recording self.old).machine.handed) }
        ensures encodable { IfOk result
            (λ given. AllByRecursion (λ e. IsEncodable e.reply) given.entries.items) }
        ensures handed { OnOk result ((recording self.new).machine
            ≡ record (recording self.old).machine {
              handed = length (recording self.old).machine.history;
            }) }
        ensures exact { IsOk result
            ↔ ((room.items ≡ [])
            × ((recording self.old).machine.config.calls ≤ vec_capacity room)) }
        ensures back { IfErr result (λ back. back ≡ room) }
        ensures err { OnErr result ((recording self.new).machine ≡ (recording self.old).machine) }
        ensures press { (recording self.new).press ≡ (recording self.old).press };

    /// Lets go of the entries that are kept, as if they were handed over.
    fn forget(&mut self)
        ensures forgotten { (recording self.new).machine
            ≡ record (recording self.old).machine {
              handed = length (recording self.old).machine.history;
            } }
        ensures press { (recording self.new).press ≡ (recording self.old).press };
}

impl Records for Scheduler {
    ghost recording = { alone };

    fn scheduler(&self) -> &Scheduler {
        self
    }

    fn hand_over(&mut self, room: Vec<Entry>) -> Result<HandedOver, Vec<Entry>> {
        Scheduler::hand_over(self, room)
    }

    fn forget(&mut self) {
        Scheduler::forget(self);
    }
}
