//! The calls of a holder at a desk with a press.
ghost use Rattle.sched_desk.specs.Build.{BuildsNoMap};
ghost use Rattle.sched_desk.specs.Calls.{HasRecorded};

use crate::building::{commit, prepare};
use crate::recorder::Recorder;
use minislots::Stamp;
use sched_history::{Call, PlanFault, Reply, Unrecorded};
use std::sync::Wait;

impl Recorder {
    /// Makes a call and records it, with this stamp. A build's MAP is published before the build is recorded: it may
    /// wait for readers that are in the middle of a read.
    pub fn call<R: Wait>(&mut self, rt: &R, stamp: Stamp, call: Call) -> Result<Reply, Unrecorded>
        ensures recorded { HasRecorded self.old stamp call self.new result }
    {
        match call {
            Call::Build { now } => self.build(rt, stamp, now),
            _ => self.record(stamp, call),
        }
    }

    // A build: its memory is taken, its MAP published, and it is recorded, in this order. One that is refused is
    // recorded like any other call.
    fn build<R: Wait>(&mut self, rt: &R, stamp: Stamp, now: u64) -> Result<Reply, Unrecorded>
        ensures recorded { HasRecorded self.old stamp (Call.Build now) self.new result }
    {
        match prepare(&mut self.scheduler, &mut self.press, self.maps, now) {
            Ok(planned) => {
                self.press.publish(rt);
                let reply = commit(&mut self.scheduler, &self.press, self.maps, stamp, planned);
                self.maps += 1;
                Ok(reply)
            }
            Err(PlanFault::Refused(_)) => self.record(stamp, Call::Build { now }),
            Err(PlanFault::HistoryFull) => Err(Unrecorded::HistoryFull),
            Err(PlanFault::Memory) => Err(Unrecorded::Memory),
        }
    }

    // A call that publishes nothing.
    fn record(&mut self, stamp: Stamp, call: Call) -> Result<Reply, Unrecorded>
        requires plain { BuildsNoMap self.old.machine.config self.old.machine.history call }
        ensures recorded { HasRecorded self.old stamp call self.new result }
    {
        self.scheduler.call(stamp, call)
    }
}
