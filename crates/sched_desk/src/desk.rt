//! The desk that the holder of the lock has, as a journal.
ghost use Rattle.std.specs.Prelude.{◌≡◌, [], IfOk, IfErr, length, option_map, slice_get};
ghost use Rattle.sched_desk.specs.Closed.{IsCounted};
ghost use Rattle.sched_desk.specs.Desk.{desk_of, events_of, fixed_of, machine_of, Agrees, published, history_of};
ghost use Rattle.sched_desk.specs.Events.{author_of, kept_events, kept_in, maker_of};

use crate::docket::Docket;
use crate::event::Event;
use crate::recorder::Recorder;
use crate::records::Records;
use map_snapshot::Told;
use minislots::{Config, Stamp};
use sched_history::{Entry, Scheduler};
use std::alloc::Global;
use std::marker::Model;
use ticket_core::MAX_SEATS;
use ticket_lock::Journal;

/// The scheduler that the holder of the lock has, with the press that publishes its MAPs or with none. Contracts see
/// its configuration, which press it has, whether it keeps its whole history, and what its turns have added to the list
/// of the lock, of which the whole history is the entries.
#[must_use]
#[derive(Drop)]
pub struct Desk<S: Records> {
    // Pointers, since each turn at the lock moves the desk several times.
    pub(crate) recorder: Box<S>,
    pub(crate) docket: Box<Docket>,
}

impl<S: Records> Model for Desk<S> {
    ghost use Rattle.sched_desk.specs.Desk.{DeskState, desk_of, Agrees};

    ghost Value = { DeskState };

    ghost view = { λ d. desk_of (S.recording d.recorder.value) d.docket.value };

    ghost invariant = { λ d. Agrees (S.recording d.recorder.value) d.docket.value };
}

/// What does not change of a desk: its configuration, which press it has, and whether it keeps its whole history. No
/// value of it is made.
#[derive(Drop)]
pub struct DeskHead {
    config: Config,
    press: Told,
    keeps: bool,
}

impl Model for DeskHead {
    ghost use Rattle.sched_desk.specs.Desk.{FixedDesk};

    ghost Value = { FixedDesk };

    ghost view = { λ h. record { config = h.config; press = h.press.press; keeps = h.keeps } };
}

impl<S: Records> Journal for Desk<S> {
    type Head = DeskHead;

    type Entry = Event;

    ghost head = { fixed_of };

    ghost entries = { events_of };

    ghost kept = { kept_events };

    ghost stamp = { author_of };

    fn len(&self) -> usize {
        self.kept().len()
    }

    fn stamp_at(&self, i: usize) -> Option<Stamp> {
        stamp_in(self.kept(), i)
    }
}

// The stamp of the entry at this place.
fn stamp_in(kept: &[Entry], i: usize) -> Option<Stamp>
    ensures { result ≡ option_map maker_of (slice_get kept.now i) }
{
    let entry = kept.get(i)?;
    Some(entry.stamp)
}

impl<S: Records> Desk<S> {
    /// A desk with this recorder, which has recorded no call. It keeps its whole history, or hands over as it is
    /// asked to. Where memory is refused the recorder comes back.
    pub fn new(alloc: Global, recorder: S, keeps: bool) -> Result<Desk<S>, S>
        requires empty { ((S.recording recorder).machine.history ≡ [])
            × ((S.recording recorder).machine.handed ≡ 0) }
        ensures made { IfOk result (λ desk. desk ≡ desk_of (S.recording recorder) (record {
          keeps = keeps;
          events = [];
        })) }
        ensures given_back { IfErr result (λ r. r ≡ recorder) }
    {
        let Ok(docket) = Box::new(alloc, Docket::new(keeps)) else {
            return Err(recorder);
        };
        match Box::new(alloc, recorder) {
            Ok(recorder) => Ok(Desk { recorder, docket }),
            Err(refused) => Err(refused.value),
        }
    }

    // The entries that are kept.
    fn kept(&self) -> &[Entry]
        ensures { result.now ≡ kept_in self.now.events }
    {
        self.scheduler().history()
    }

    /// The scheduler, at which its holder can look.
    pub fn scheduler(&self) -> &Scheduler
        ensures { result.now ≡ machine_of self.now }
    {
        self.recorder.scheduler()
    }

    /// What it has, in the memory that it has, with how many entries of its history each seat made.
    pub fn into_recorder(self) -> (Box<S>, [u64; MAX_SEATS])
        ensures machine { (S.recording result.0.value).machine ≡ machine_of self }
        ensures press { (S.recording result.0.value).press ≡ self.press }
        ensures whole { Agrees
            (S.recording result.0.value) (record { keeps = self.keeps; events = self.events }) }
        ensures counts { IsCounted result.1 (history_of self) }
    {
        let Desk { recorder, docket } = self;
        let counts = docket.counts();
        (recorder, counts)
    }
}

impl Desk<Recorder> {
    /// Tells what was published: the encodings of the history's MAPs. It takes no memory, and waits for nobody.
    pub fn tell(&mut self) -> Told
        ensures same { self.new ≡ self.old }
        ensures told { result
            ≡ record { press = self.old.press; list = published (history_of self.old) } }
    {
        self.recorder.tell()
    }
}
