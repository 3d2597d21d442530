//! How a desk hands over what it keeps, and what a call adds to it.
ghost use Rattle.std.specs.Prelude.{◌≡◌, not};
ghost use Rattle.sched_history.specs.History.{IsLegal};
ghost use Rattle.sched_desk.specs.Calls.{HasAnswered, HasCalled};
ghost use Rattle.sched_desk.specs.Desk.{history_of};
ghost use Rattle.sched_desk.specs.Handing.{HasHandedOver, marked_by};

use crate::desk::Desk;
use crate::recorder::Recorder;
use crate::records::Records;
use minislots::Stamp;
use sched_history::{Call, Entry, HandedOver, Reply, Scheduler, Unrecorded};
use std::sync::Wait;

impl<S: Records> Desk<S> {
    /// Hands over the entries that are kept, with the place of the first in the whole history, under a mark with this
    /// stamp. They are exchanged for an empty list with room for as many entries as the configuration allows: no memory
    /// is taken, and no entry is copied. A list that is not empty, or has less room, comes back, and nothing has
    /// changed; so it does at a desk that keeps its whole history.
    pub fn hand_over(&mut self, stamp: Stamp, room: Vec<Entry>) -> Result<HandedOver, Vec<Entry>>
        ensures handed { HasHandedOver self.old stamp room self.new result }
        ensures legal { IsLegal self.new.config (history_of self.new) }
    {
        // That the history is legal is told on.
        let _kept = self.recorder.scheduler().history();
        if self.docket.keeps() {
            return Err(room);
        }
        let given = self.recorder.hand_over(room)?;
        self.docket.mark(stamp);
        Ok(given)
    }

    /// Lets go of the entries that are kept, under a mark with this stamp, and says so. Their room stays. A desk that
    /// keeps its whole history does not.
    pub fn forget(&mut self, stamp: Stamp) -> bool
        ensures exact { result ≡ not self.old.keeps }
        ensures marked { self.new ≡ marked_by self.old stamp result }
        ensures legal { IsLegal self.new.config (history_of self.new) }
    {
        // That the history is legal is told on.
        let _kept = self.recorder.scheduler().history();
        if self.docket.keeps() {
            return false;
        }
        self.recorder.forget();
        self.docket.mark(stamp);
        true
    }
}

// Makes a call of a scheduler that publishes to nobody.
fn record_alone(scheduler: &mut Scheduler, stamp: Stamp, call: Call) -> Result<Reply, Unrecorded>
    ensures answered { HasAnswered scheduler.old stamp call scheduler.new result }
{
    scheduler.call(stamp, call)
}

impl Desk<Recorder> {
    /// Makes a call and records it, with this stamp. A build's MAP is published before the build is recorded: it may
    /// wait for readers that are in the middle of a read.
    pub fn call<R: Wait>(&mut self, rt: &R, stamp: Stamp, call: Call) -> Result<Reply, Unrecorded>
        ensures called { HasCalled self.old stamp call self.new result }
    {
        match self.recorder.call(rt, stamp, call) {
            Ok(reply) => {
                self.docket.record(stamp, &call, &reply);
                Ok(reply)
            }
            Err(unrecorded) => Err(unrecorded),
        }
    }
}

impl Desk<Scheduler> {
    /// Makes a call and records it, with this stamp. Nothing is published.
    pub fn call_alone(&mut self, stamp: Stamp, call: Call) -> Result<Reply, Unrecorded>
        ensures called { HasCalled self.old stamp call self.new result }
    {
        match record_alone(&mut self.recorder, stamp, call) {
            Ok(reply) => {
                self.docket.record(stamp, &call, &reply);
                Ok(reply)
            }
            Err(unrecorded) => Err(unrecorded),
        }
    }
}
