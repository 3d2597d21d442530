//! Whether a reply that is handed in is an answer to a call that no test refuses, and what is kept after it.

ghost use Rattle.std.specs.Prelude.{◌≡◌, true, false, Some, IfOk, OnErr};
ghost use Rattle.sched_calls.specs.FlowSpec.{is_periodic};
ghost use Rattle.sched_history.specs.State.{IsOpen, AnsweredOpen, FollowsOpen, DiffersOpen, TakesMemoryOpen};
ghost use Rattle.sched_history.specs.Audit.{is_told};

use super::refusing::is_periodic;
use super::state::State;
use crate::auditing::sameness::{is_refused, is_same_flat, is_same_map, map_in, placement_in};
use periodic::PlaceFault;
use sched_calls::{Call, FlowSpec, FrameMap, Placement, Refusal, Reply};
use std::alloc::{AllocError, Global};

impl State {
    // Whether this is an answer to a call that no test refuses: any lawful one. Where it is, the state is
    // that after it, and else nothing changes.
    pub(crate) fn follow(
        &mut self,
        alloc: Global,
        call: Call,
        reply: &Reply,
    ) -> Result<bool, AllocError>
        requires { IsOpen self.old call }
        ensures follows { IfOk result
            (λ is. is ≡ true → FollowsOpen self.old self.new call reply.now) }
        ensures differs { IfOk result (λ is. is ≡ false → DiffersOpen self.old call reply.now) }
        ensures same { IfOk result (λ is. is ≡ false → self.new ≡ self.old) }
        ensures err { OnErr result (self.new ≡ self.old) }
        ensures memory { OnErr result (TakesMemoryOpen self.old call) }
    {
        match call {
            Call::Admit(sid, spec) if is_periodic(spec) => self.follow_admission(sid, spec, reply),
            Call::Build { now } => self.follow_build(alloc, now, reply),
            Call::Change(sid, spec) if is_periodic(spec) => self.follow_change(sid, spec, reply),
            _ => self.follow_told(call, reply),
        }
    }

    // Follows a call that has one answer, without lists: the reply is that one.
    fn follow_told(&mut self, call: Call, reply: &Reply) -> Result<bool, AllocError>
        requires open { IsOpen self.old call }
        requires told { is_told call ≡ true }
        ensures follows { IfOk result
            (λ is. is ≡ true → FollowsOpen self.old self.new call reply.now) }
        ensures differs { IfOk result (λ is. is ≡ false → DiffersOpen self.old call reply.now) }
        ensures same { IfOk result (λ is. is ≡ false → self.new ≡ self.old) }
        ensures err { OnErr result (self.new ≡ self.old) }
        ensures memory { OnErr result (TakesMemoryOpen self.old call) }
    {
        if !is_same_flat(&self.told(call), reply) {
            return Ok(false);
        }
        self.make_told(call)?;
        Ok(true)
    }

    // The answer to such a call.
    fn told(&self, call: Call) -> Reply
        requires open { IsOpen self.now call }
        requires told { is_told call ≡ true }
        ensures { AnsweredOpen self.now call result }
    {
        match call {
            Call::Admit(_, _) => Reply::Admitted(None),
            Call::Remove(_) => Reply::Removed,
            Call::Ask { .. } => Reply::Taken,
            Call::Heard { .. } => Reply::Noted,
            // A build is answered by a MAP.
            Call::Build { .. } => unreachable!(),
            Call::Skip { now } => Reply::Skipped(self.start_after(now)),
            Call::Status(sid) => self.tell(sid),
            Call::Reserve { .. } => Reply::Reserved,
            Call::Header(_) => Reply::Noted,
            Call::Replace { .. } => Reply::Taken,
            Call::Change(_, _) => Reply::Changed(None),
            Call::Rest(_) | Call::Wake(_) => Reply::Noted,
        }
    }

    // Follows the admission of a periodic flow: the reply has a lawful placement, or says that there is none.
    fn follow_admission(
        &mut self,
        sid: u16,
        spec: FlowSpec,
        reply: &Reply,
    ) -> Result<bool, AllocError>
        requires open { IsOpen self.old (Call.Admit sid spec) }
        requires periodic { is_periodic spec ≡ true }
        ensures follows { IfOk result (λ is. is ≡ true →
            FollowsOpen self.old self.new (Call.Admit sid spec) reply.now) }
        ensures differs { IfOk result
            (λ is. is ≡ false → DiffersOpen self.old (Call.Admit sid spec) reply.now) }
        ensures same { IfOk result (λ is. is ≡ false → self.new ≡ self.old) }
        ensures err { OnErr result (self.new ≡ self.old) }
        ensures memory { OnErr result (TakesMemoryOpen self.old (Call.Admit sid spec)) }
    {
        if let Some(placement) = placement_in(reply) {
            return self.adopt(sid, spec, placement);
        }
        Ok(is_refused(reply, Refusal::NoPlace) && self.has_no_place(sid, spec))
    }

    // Whether this placement is lawful for the flow. Where it is, the flow is admitted with it.
    fn adopt(&mut self, sid: u16, spec: FlowSpec, placement: &Placement) -> Result<bool, AllocError>
        requires open { IsOpen self.old (Call.Admit sid spec) }
        requires periodic { is_periodic spec ≡ true }
        ensures follows { IfOk result (λ is. is ≡ true → FollowsOpen self.old self.new
            (Call.Admit sid spec) (Reply.Admitted (Some placement.now))) }
        ensures differs { IfOk result (λ is. is ≡ false →
            DiffersOpen self.old (Call.Admit sid spec) (Reply.Admitted (Some placement.now))) }
        ensures same { IfOk result (λ is. is ≡ false → self.new ≡ self.old) }
        ensures err { OnErr result (self.new ≡ self.old) }
        ensures memory { OnErr result (TakesMemoryOpen self.old (Call.Admit sid spec)) }
    {
        if !self.table.adopt(sid, &spec, self.next, placement)? {
            return Ok(false);
        }
        match self.book.admit(sid, spec) {
            Ok(()) => Ok(true),
            Err(_) => {
                self.table.remove(sid);
                Err(AllocError)
            }
        }
    }

    // Whether no placement is lawful for the flow. One that is found is taken out again.
    fn has_no_place(&mut self, sid: u16, spec: FlowSpec) -> bool
        requires open { IsOpen self.old (Call.Admit sid spec) }
        requires periodic { is_periodic spec ≡ true }
        ensures follows { result ≡ true →
            FollowsOpen self.old self.new (Call.Admit sid spec) (Reply.Refused Refusal.NoPlace) }
        ensures differs { result ≡ false →
            DiffersOpen self.old (Call.Admit sid spec) (Reply.Refused Refusal.NoPlace) }
        ensures same { self.new ≡ self.old }
    {
        match self.table.place(sid, &spec, self.next) {
            Ok(_) => self.table.remove(sid),
            Err(PlaceFault::NoPlace) => return true,
            Err(PlaceFault::Memory) => {}
        }
        false
    }

    // Follows a build: the reply has the lawful MAP of the next frame.
    fn follow_build(&mut self, alloc: Global, now: u64, reply: &Reply) -> Result<bool, AllocError>
        requires open { IsOpen self.old (Call.Build now) }
        ensures follows { IfOk result
            (λ is. is ≡ true → FollowsOpen self.old self.new (Call.Build now) reply.now) }
        ensures differs { IfOk result
            (λ is. is ≡ false → DiffersOpen self.old (Call.Build now) reply.now) }
        ensures same { IfOk result (λ is. is ≡ false → self.new ≡ self.old) }
        ensures err { OnErr result (self.new ≡ self.old) }
        ensures memory { OnErr result (TakesMemoryOpen self.old (Call.Build now)) }
    {
        let Some(map) = map_in(reply) else {
            return Ok(false);
        };
        self.follow_map(alloc, now, map)
    }

    // Whether this is the lawful MAP of the next frame. Where it is, the state is that after it.
    fn follow_map(&mut self, alloc: Global, _now: u64, map: &FrameMap) -> Result<bool, AllocError>
        requires open { IsOpen self.old (Call.Build _now) }
        ensures follows { IfOk result (λ is. is ≡ true →
            FollowsOpen self.old self.new (Call.Build _now) (Reply.Built map.now)) }
        ensures differs { IfOk result (λ is. is ≡ false →
            DiffersOpen self.old (Call.Build _now) (Reply.Built map.now)) }
        ensures same { IfOk result (λ is. is ≡ false → self.new ≡ self.old) }
        ensures err { OnErr result (self.new ≡ self.old) }
        ensures memory { OnErr result (TakesMemoryOpen self.old (Call.Build _now)) }
    {
        let frame = self.plan_frame(alloc)?;
        if !is_same_map(&frame.map, map) {
            return Ok(false);
        }
        self.commit(frame);
        Ok(true)
    }
}
