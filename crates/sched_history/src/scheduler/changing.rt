//! Flows that have other parameters: how a change is answered, and how its answer is followed.

ghost use Rattle.std.specs.Prelude.{◌≡◌, ◌≢◌, true, false, Some, None, IfOk, IfSome, OnErr};
ghost use Rattle.sched_calls.specs.FlowSpec.{is_periodic, has_place_of};
ghost use Rattle.flow_book.specs.Flows.{flow_of};
ghost use Rattle.sched_history.specs.State.{IsOpen, FollowsOpen, DiffersOpen, TakesMemoryOpen};

use super::answering::Answer;
use super::refusing::is_periodic;
use super::state::State;
use crate::auditing::sameness::{changed_placement_in, is_refused};
use periodic::PlaceFault;
use sched_calls::{Call, FlowSpec, Placement, Refusal, Reply};
use std::alloc::{AllocError, Global};

// Whether two flows may stand at one place in the cycle.
fn has_place_of(spec: FlowSpec, other: FlowSpec) -> bool
    ensures { result ≡ has_place_of spec other }
{
    match (spec, other) {
        (
            FlowSpec::Unsolicited {
                size,
                interval_us,
                jitter_us,
                grants,
            },
            FlowSpec::Unsolicited {
                size: other_size,
                interval_us: other_interval,
                jitter_us: other_jitter,
                grants: other_grants,
            },
        ) => {
            size == other_size
                && interval_us == other_interval
                && jitter_us == other_jitter
                && grants == other_grants
        }
        (
            FlowSpec::Polled {
                interval_us,
                jitter_us,
                ..
            },
            FlowSpec::Polled {
                interval_us: other_interval,
                jitter_us: other_jitter,
                ..
            },
        ) => interval_us == other_interval && jitter_us == other_jitter,
        _ => false,
    }
}

// A placement as the answer that is handed out, where one is asked for.
fn copy_placement(
    alloc: Global,
    placement: &Placement,
    twice: bool,
) -> Result<Option<Reply>, AllocError>
    ensures { IfOk result
        (λ copy. twice ≡ true → copy ≡ Some (Reply.Changed (Some placement.now))) }
{
    if !twice {
        return Ok(None);
    }
    Ok(Some(Reply::Changed(Some(placement.copy(alloc)?))))
}

impl State {
    // Gives a periodic flow other parameters. Where it leaves what places it, it keeps its placement, and else it is
    // placed anew.
    pub(super) fn change_placed_flow(
        &mut self,
        alloc: Global,
        sid: u16,
        spec: FlowSpec,
        twice: bool,
    ) -> Result<Answer, AllocError>
        requires open { IsOpen self.old (Call.Change sid spec) }
        requires periodic { is_periodic spec ≡ true }
        ensures answered { IfOk result
            (λ a. FollowsOpen self.old self.new (Call.Change sid spec) a.reply) }
        ensures copied { IfOk result (λ a. twice ≡ true → a.copy ≡ Some a.reply) }
        ensures err { OnErr result (self.new ≡ self.old) }
        ensures memory { OnErr result (TakesMemoryOpen self.old (Call.Change sid spec)) }
    {
        if self.keeps_place(sid, spec) {
            return self.change_in_place(alloc, sid, spec, twice);
        }
        self.change_place(sid, spec, twice)
    }

    // Whether a live flow with other parameters may stand where it stands.
    fn keeps_place(&self, sid: u16, spec: FlowSpec) -> bool
        ensures { IfSome (flow_of sid self.now.book.flows) (λ f. has_place_of f.spec spec ≡ result) }
    {
        match self.book.flow(sid) {
            Some(old) => has_place_of(old, spec),
            None => false,
        }
    }

    // Changes a flow that has no place in the cycle.
    pub(super) fn change_unplaced(&mut self, sid: u16, spec: FlowSpec) -> Reply
        requires open { IsOpen self.old (Call.Change sid spec) }
        requires aperiodic { is_periodic spec ≡ false }
        ensures { FollowsOpen self.old self.new (Call.Change sid spec) result }
    {
        self.book.change(sid, spec);
        Reply::Changed(None)
    }

    // Changes a flow that keeps its placement.
    fn change_in_place(
        &mut self,
        alloc: Global,
        sid: u16,
        spec: FlowSpec,
        twice: bool,
    ) -> Result<Answer, AllocError>
        requires open { IsOpen self.old (Call.Change sid spec) }
        requires alike { IfSome (flow_of sid self.old.book.flows) (λ f. has_place_of f.spec spec ≡ true) }
        ensures answered { IfOk result
            (λ a. FollowsOpen self.old self.new (Call.Change sid spec) a.reply) }
        ensures copied { IfOk result (λ a. twice ≡ true → a.copy ≡ Some a.reply) }
        ensures err { OnErr result (self.new ≡ self.old) }
        ensures memory { OnErr result (TakesMemoryOpen self.old (Call.Change sid spec)) }
    {
        let placement = self.table.told(sid, &spec, self.next)?;
        let copy = copy_placement(alloc, &placement, twice)?;
        self.table.keep(sid, spec, &placement);
        self.book.change(sid, spec);
        Ok(Answer {
            reply: Reply::Changed(Some(placement)),
            copy,
        })
    }

    // Changes a flow that is placed anew, where there is a place for it.
    fn change_place(&mut self, sid: u16, spec: FlowSpec, twice: bool) -> Result<Answer, AllocError>
        requires open { IsOpen self.old (Call.Change sid spec) }
        requires periodic { is_periodic spec ≡ true }
        requires other { IfSome (flow_of sid self.old.book.flows) (λ f. has_place_of f.spec spec ≡ false) }
        ensures answered { IfOk result
            (λ a. FollowsOpen self.old self.new (Call.Change sid spec) a.reply) }
        ensures copied { IfOk result (λ a. twice ≡ true → a.copy ≡ Some a.reply) }
        ensures err { OnErr result (self.new ≡ self.old) }
        ensures memory { OnErr result (TakesMemoryOpen self.old (Call.Change sid spec)) }
    {
        match self.table.place_anew(sid, &spec, self.next, twice) {
            Ok((placement, copy)) => {
                self.book.change(sid, spec);
                Ok(Answer {
                    reply: Reply::Changed(Some(placement)),
                    copy: copy.map(|placement| Reply::Changed(Some(placement))),
                })
            }
            Err(PlaceFault::NoPlace) => Ok(Answer {
                reply: Reply::Refused(Refusal::NoPlace),
                copy: Some(Reply::Refused(Refusal::NoPlace)),
            }),
            Err(PlaceFault::Memory) => Err(AllocError),
        }
    }

    // Follows a change of a periodic flow: the reply has the placement that it keeps or a lawful one, or says that
    // there is none.
    pub(super) fn follow_change(
        &mut self,
        sid: u16,
        spec: FlowSpec,
        reply: &Reply,
    ) -> Result<bool, AllocError>
        requires open { IsOpen self.old (Call.Change sid spec) }
        requires periodic { is_periodic spec ≡ true }
        ensures follows { IfOk result (λ is. is ≡ true →
            FollowsOpen self.old self.new (Call.Change sid spec) reply.now) }
        ensures differs { IfOk result
            (λ is. is ≡ false → DiffersOpen self.old (Call.Change sid spec) reply.now) }
        ensures same { IfOk result (λ is. is ≡ false → self.new ≡ self.old) }
        ensures err { OnErr result (self.new ≡ self.old) }
        ensures memory { OnErr result (TakesMemoryOpen self.old (Call.Change sid spec)) }
    {
        let Some(placement) = changed_placement_in(reply) else {
            return Ok(self.follow_refused(sid, spec, reply));
        };
        if self.keeps_place(sid, spec) {
            return Ok(self.follow_kept(sid, spec, placement));
        }
        self.adopt_change(sid, spec, placement)
    }

    // Whether the reply says that there is no place, and there is none.
    fn follow_refused(&mut self, sid: u16, spec: FlowSpec, reply: &Reply) -> bool
        requires open { IsOpen self.old (Call.Change sid spec) }
        requires periodic { is_periodic spec ≡ true }
        requires unplaced { (p : Placement) → reply.now ≢ Reply.Changed (Some p) }
        ensures follows { result ≡ true → FollowsOpen self.old self.new (Call.Change sid spec) reply.now }
        ensures differs { result ≡ false → DiffersOpen self.old (Call.Change sid spec) reply.now }
        ensures same { self.new ≡ self.old }
    {
        if !is_refused(reply, Refusal::NoPlace) {
            return false;
        }
        self.lacks_place(sid, spec)
    }

    // Whether this is the placement that a flow keeps. Where it is, the flow is changed.
    fn follow_kept(&mut self, sid: u16, spec: FlowSpec, placement: &Placement) -> bool
        requires open { IsOpen self.old (Call.Change sid spec) }
        requires alike { IfSome (flow_of sid self.old.book.flows) (λ f. has_place_of f.spec spec ≡ true) }
        ensures follows { result ≡ true → FollowsOpen self.old self.new
            (Call.Change sid spec) (Reply.Changed (Some placement.now)) }
        ensures differs { result ≡ false →
            DiffersOpen self.old (Call.Change sid spec) (Reply.Changed (Some placement.now)) }
        ensures same { result ≡ false → self.new ≡ self.old }
    {
        if !self.table.is_told(sid, &spec, self.next, placement) {
            return false;
        }
        self.table.keep(sid, spec, placement);
        self.book.change(sid, spec);
        true
    }

    // Whether this placement is lawful for a flow that is placed anew. Where it is, the flow is changed with it.
    fn adopt_change(
        &mut self,
        sid: u16,
        spec: FlowSpec,
        placement: &Placement,
    ) -> Result<bool, AllocError>
        requires open { IsOpen self.old (Call.Change sid spec) }
        requires periodic { is_periodic spec ≡ true }
        requires other { IfSome (flow_of sid self.old.book.flows) (λ f. has_place_of f.spec spec ≡ false) }
        ensures follows { IfOk result (λ is. is ≡ true → FollowsOpen self.old self.new
            (Call.Change sid spec) (Reply.Changed (Some placement.now))) }
        ensures differs { IfOk result (λ is. is ≡ false →
            DiffersOpen self.old (Call.Change sid spec) (Reply.Changed (Some placement.now))) }
        ensures same { IfOk result (λ is. is ≡ false → self.new ≡ self.old) }
        ensures err { OnErr result (self.new ≡ self.old) }
        ensures memory { OnErr result (TakesMemoryOpen self.old (Call.Change sid spec)) }
    {
        if !self.table.adopt_anew(sid, &spec, self.next, placement)? {
            return Ok(false);
        }
        self.book.change(sid, spec);
        Ok(true)
    }

    // Whether a flow is to be placed anew, and no placement is lawful for it.
    fn lacks_place(&mut self, sid: u16, spec: FlowSpec) -> bool
        requires open { IsOpen self.old (Call.Change sid spec) }
        requires periodic { is_periodic spec ≡ true }
        ensures follows { result ≡ true →
            FollowsOpen self.old self.new (Call.Change sid spec) (Reply.Refused Refusal.NoPlace) }
        ensures differs { result ≡ false →
            DiffersOpen self.old (Call.Change sid spec) (Reply.Refused Refusal.NoPlace) }
        ensures same { self.new ≡ self.old }
    {
        if self.keeps_place(sid, spec) {
            return false;
        }
        self.table.has_no_place(sid, &spec, self.next)
    }
}
