//! Lists of admissions, removals and frames that are left out, drawn by a fixed rule, in which each flow is placed
//! where the slow reference places it.

use super::slow::{SlowFlow, place};
use crate::base::draws::Draws;
use crate::base::{BASE, checked};
use flow_book::FlowSpec;
use minislots::{Checked, Config, Stamp};
use periodic::Placement;
use sched_history::{Call, Refusal, Reply, Scheduler};
use std::alloc::{AllocError, AllocGlobal};
use std::process::Abort;
use std::test::Fail;

// All calls are made by one seat.
const STAMP: Stamp = Stamp { seat: 0, ticket: 0 };

// A scheduler, and what the slow reference knows of its flows.
#[derive(Drop)]
struct Twins {
    scheduler: Scheduler,
    config: Checked,
    flows: Vec<SlowFlow>,
    next: u64,
    placed: u32,
    refused: u32,
}

// Parameters of grants up to so many bytes, or of polls, each frame, each second or each fourth.
fn spec_of(draws: &mut Draws, frame: u32, bytes: u32) -> FlowSpec {
    let interval_us = frame.saturating_mul([25, 50, 100][draws.below(3) as usize]);
    let jitter_us = [0, 75, 400, 1_600][draws.below(4) as usize];
    if draws.below(4) == 0 {
        return FlowSpec::Polled {
            interval_us,
            jitter_us,
            rate: 0,
            burst: 0,
            peak: 0,
        };
    }
    FlowSpec::Unsolicited {
        size: draws.below(bytes.max(1)).saturating_add(1),
        interval_us,
        jitter_us,
        grants: draws.below(3) as u8 + 1,
    }
}

// The flow stands where the slow reference has it.
fn stands(rt: &impl Abort, placement: &Placement, flow: &SlowFlow) {
    let sid = flow.sid;
    assert_eq!(rt; placement.reference, flow.reference, "reference of {sid}");
    let is_same = placement.starts.as_slice() == flow.starts.as_slice();
    assert!(rt; is_same, "starts of {sid}");
}

impl Twins {
    fn open(rt: &(impl Abort + AllocGlobal), config: Config) -> Result<Twins, Fail> {
        let config = checked(rt, config);
        Ok(Twins {
            scheduler: Scheduler::open(rt.alloc(), config)?,
            config,
            flows: Vec::new(rt.alloc()),
            next: config.config().start,
            placed: 0,
            refused: 0,
        })
    }

    // Admits a flow. Where it is placed or finds no place, the slow reference says the same; any other refusal changes
    // nothing.
    fn admit(
        &mut self,
        rt: &(impl Abort + AllocGlobal),
        sid: u16,
        spec: FlowSpec,
    ) -> Result<(), AllocError> {
        let placed = match self.scheduler.call(STAMP, Call::Admit(sid, spec)) {
            Ok(Reply::Admitted(Some(placement))) => Some(placement),
            Ok(Reply::Refused(Refusal::NoPlace)) => None,
            _ => return Ok(()),
        };
        let found = place(&self.flows, &self.config, rt.alloc(), sid, spec, self.next)?;
        match (placed, found) {
            (Some(placement), Some(flow)) => {
                stands(rt, &placement, &flow);
                self.placed = self.placed.saturating_add(1);
                self.flows.push(flow)?;
            }
            (None, None) => self.refused = self.refused.saturating_add(1),
            (_, found) => {
                let has_place = found.is_some();
                panic!(rt; "{spec:?} where has_place is {has_place}");
            }
        }
        Ok(())
    }

    // Removes the flow of this SID, where there is one.
    fn remove(&mut self, sid: u16) {
        let _answer = self.scheduler.call(STAMP, Call::Remove(sid));
        self.flows.retain(|flow| flow.sid != sid);
    }

    // Leaves out frames, where the next one is late.
    fn skip(&mut self, now: u64) {
        if let Ok(Reply::Skipped(start)) = self.scheduler.call(STAMP, Call::Skip { now }) {
            self.next = start;
        }
    }

    // One change, drawn.
    fn change(
        &mut self,
        rt: &(impl Abort + AllocGlobal),
        draws: &mut Draws,
        bytes: u32,
    ) -> Result<(), AllocError> {
        let sid = draws.below(20) as u16 + 1;
        match draws.below(8) {
            0 | 1 => self.remove(sid),
            2 => self.skip(self.next.saturating_sub(u64::from(draws.below(100)))),
            _ => {
                let spec = spec_of(draws, self.config.frame(), bytes);
                self.admit(rt, sid, spec)?;
            }
        }
        Ok(())
    }
}

// Changes on a channel.
#[derive(Clone, Copy)]
struct Play {
    frame: u32,
    cycle: u32,
    changes: u32,
    // The most bytes of a grant.
    bytes: u32,
}

// Short frames, frames across words, and the longest frames.
const PLAYS: [Play; 3] = [
    Play {
        frame: 40,
        cycle: 8,
        changes: 600,
        bytes: 200,
    },
    Play {
        frame: 150,
        cycle: 4,
        changes: 400,
        bytes: 900,
    },
    Play {
        frame: 1024,
        cycle: 4,
        changes: 200,
        bytes: 6_000,
    },
];

// Some flows have a place, and some have none.
#[test]
fn each_flow_stands_where_the_slow_search_puts_it(rt: HostRuntime) -> Result<(), Fail> {
    for play in PLAYS {
        let config = Config {
            frame: play.frame,
            cycle: play.cycle,
            start: u64::from(play.frame) * 20,
            ..BASE
        };
        let mut twins = Twins::open(&rt, config)?;
        let mut draws = Draws::from_seed(7);
        for _ in 0..play.changes {
            twins.change(&rt, &mut draws, play.bytes)?;
        }
        let (placed, refused) = (twins.placed, twins.refused);
        assert!(rt;
            placed > 20 && refused > 20,
            "{placed} and {refused} in {}",
            play.frame
        );
    }
    Ok(())
}
