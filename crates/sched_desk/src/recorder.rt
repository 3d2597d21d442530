//! The scheduler with its press, as a desk may have it.
ghost use Rattle.std.specs.Prelude.{◌≡◌, [], length};
ghost use Rattle.sched_desk.specs.Build.{with_press};
ghost use Rattle.sched_desk.specs.Desk.{published};

use crate::kept::Kept;
use crate::records::Records;
use map_snapshot::{Press, Told, Whole};
use sched_history::{Entry, HandedOver, Scheduler};
use std::marker::Model;
use std::sync::Wait;

/// A scheduler with its press. What is published is the encodings of the history's MAPs, in their order.
#[derive(Drop)]
pub struct Recorder {
    pub(crate) scheduler: Scheduler,
    pub(crate) press: Kept,
    // How many MAPs the history has.
    pub(crate) maps: u64,
}

impl Model for Recorder {
    ghost use Rattle.sched_desk.specs.Desk.{Recording, ShowsHistory};
    ghost use Rattle.sched_desk.specs.Build.{with_press};

    ghost Value = { Recording };

    ghost view = { λ r. with_press r.scheduler r.press };

    ghost invariant = { λ r. ShowsHistory r.scheduler r.press r.maps };
}

impl Records for Recorder {
    ghost recording = { λ r. r };

    fn scheduler(&self) -> &Scheduler {
        &self.scheduler
    }

    fn hand_over(&mut self, room: Vec<Entry>) -> Result<HandedOver, Vec<Entry>> {
        self.scheduler.hand_over(room)
    }

    fn forget(&mut self) {
        self.scheduler.forget();
    }
}

impl Recorder {
    /// One that has recorded no call, with a press that has published nothing.
    pub fn new(scheduler: Scheduler, press: Press) -> Recorder
        requires empty { scheduler.history ≡ [] }
        requires unread { (press.list ≡ []) × (press.waiting ≡ []) }
        ensures made { result ≡ with_press scheduler press }
    {
        Recorder {
            scheduler,
            press: Kept::new(press),
            maps: 0,
        }
    }

    /// What its press tells: the encodings of the history's MAPs. It takes no memory, and waits for nobody.
    pub fn tell(&mut self) -> Told
        ensures same { self.new ≡ self.old }
        ensures told { result
            ≡ record { press = self.old.press; list = published self.old.machine.history } }
    {
        self.press.tell()
    }

    /// Its scheduler, and its press, which has to end.
    pub fn into_parts(self) -> (Scheduler, Press)
        ensures parts { with_press result.0 result.1 ≡ self }
        ensures published { result.1.list ≡ published self.machine.history }
        ensures none_waits { result.1.waiting ≡ [] }
    {
        let Recorder {
            scheduler,
            press,
            maps: _,
        } = self;
        (scheduler, press.into_press())
    }

    /// Ends its press, which tells all that it has published: the encodings of the history's MAPs. It may wait for
    /// readers.
    pub fn end<R: Wait>(self, rt: &R) -> Whole
        ensures whole { result
            ≡ record { press = self.press; list = published self.machine.history } }
    {
        let Recorder {
            scheduler: _,
            press,
            maps: _,
        } = self;
        press.end(rt)
    }
}
