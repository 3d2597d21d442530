//! How many calls of each kind there were, and how many refusals with each number.

ghost use Rattle.std.specs.Prelude.{◌≡◌, ◌∷◌, ◌++◌, ◌<◌, ◌≤◌, ◌+◌, [], List, length, slice_index, slice_set};
ghost use Rattle.sched_calls.specs.declared.reply.Entry.{Entry};
ghost use Rattle.sched_calls.specs.declared.reply.TheConstants.{MAX_WHOLE_HISTORY};
ghost use Rattle.sched_report.specs.Counts.{calls_of, CountsRefusals};

use sched_history::{Call, Entry, Reply};
use sched_lines::refusal_number;

/// How many numbers a refusal may have: they are counted from 1.
pub const REFUSALS: usize = 23;

/// How many calls of each kind there were, refused ones among them.
#[derive(Clone, Copy)]
pub struct Calls {
    /// Admissions of flows.
    pub admit: u64,
    /// Requests for bytes.
    pub ask: u64,
    /// Builds of MAPs.
    pub build: u64,
    /// Changes of the parameters of a flow.
    pub change: u64,
    /// Headers of the MAPs that follow.
    pub header: u64,
    /// Notices of the minislot before which a receiver has handed in all that it heard.
    pub heard: u64,
    /// Removals of flows.
    pub remove: u64,
    /// Requests that supersede those before.
    pub replace: u64,
    /// Reserves of opportunities.
    pub reserve: u64,
    /// Calls that let an unsolicited flow rest.
    pub rest: u64,
    /// Calls that leave out the frames whose MAP would be late.
    pub skip: u64,
    /// Questions for the bytes of a flow.
    pub status: u64,
    /// Calls that give an unsolicited flow its grants again.
    pub wake: u64,
}

impl Calls {
    // No calls.
    pub(crate) fn none() -> Calls
        ensures { result ≡ calls_of [] }
    {
        Calls {
            admit: 0,
            ask: 0,
            build: 0,
            change: 0,
            header: 0,
            heard: 0,
            remove: 0,
            replace: 0,
            reserve: 0,
            rest: 0,
            skip: 0,
            status: 0,
            wake: 0,
        }
    }

    // Counts the call of an entry.
    pub(crate) fn add(&mut self, entry: &Entry)
        requires { (h : List Entry) × (self.old ≡ calls_of h) × (length h < MAX_WHOLE_HISTORY) }
        ensures { (h : List Entry) → self.old ≡ calls_of h
            → self.new ≡ calls_of (h ++ entry.now ∷ []) }
    {
        match entry.call {
            Call::Admit(..) => self.admit += 1,
            Call::Ask { .. } => self.ask += 1,
            Call::Build { .. } => self.build += 1,
            Call::Change(..) => self.change += 1,
            Call::Header(_) => self.header += 1,
            Call::Heard { .. } => self.heard += 1,
            Call::Remove(_) => self.remove += 1,
            Call::Replace { .. } => self.replace += 1,
            Call::Reserve { .. } => self.reserve += 1,
            Call::Rest(_) => self.rest += 1,
            Call::Skip { .. } => self.skip += 1,
            Call::Status(_) => self.status += 1,
            Call::Wake(_) => self.wake += 1,
        }
    }
}

// Counts the refusal of an entry, where it is one.
pub(crate) fn count_refusal(counts: &mut [u64; REFUSALS], entry: &Entry)
    requires { (h : List Entry) × CountsRefusals counts.old h × (length h < MAX_WHOLE_HISTORY) }
    ensures { (h : List Entry) → CountsRefusals counts.old h
        → CountsRefusals counts.new (h ++ entry.now ∷ []) }
{
    if let Reply::Refused(refusal) = entry.reply {
        let place = refusal_number(refusal) as usize - 1;
        counts[place] += 1;
    }
}
