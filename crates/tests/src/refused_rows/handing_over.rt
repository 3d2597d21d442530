//! A scheduler that hands over what it keeps, and an auditor that takes it. A call that found no memory is made again,
//! and nothing was lost: `checks/refused_growth` refuses every request in turn.

use super::ROWS;
use crate::base::{BASE, checked};
use minislots::{Config, Stamp};
use sched_history::{Auditor, Call, Entry, HandedOver, JudgeFault, Reply, Scheduler, Unrecorded};
use std::alloc::AllocGlobal;
use std::process::Abort;

// Entries that the scheduler keeps.
const KEPT: u32 = 2;

// A scheduler, opened again where there was no memory.
fn scheduler_at_last<R: Abort + AllocGlobal>(rt: &R) -> Scheduler {
    let config = checked(
        rt,
        Config {
            calls: KEPT,
            ..BASE
        },
    );
    let opened = match Scheduler::open(rt.alloc(), config) {
        Err(_) => Scheduler::open(rt.alloc(), config),
        opened => opened,
    };
    match opened {
        Ok(scheduler) => scheduler,
        Err(_) => panic!(rt; "no memory"),
    }
}

// An auditor, opened again where there was no memory.
fn auditor_at_last<R: Abort + AllocGlobal>(rt: &R) -> Auditor {
    let config = checked(
        rt,
        Config {
            calls: KEPT,
            ..BASE
        },
    );
    let opened = match Auditor::open(rt.alloc(), config) {
        Err(_) => Auditor::open(rt.alloc(), config),
        opened => opened,
    };
    match opened {
        Ok(auditor) => auditor,
        Err(_) => panic!(rt; "no memory"),
    }
}

// An empty list with room for so many entries.
fn room_at_last<R: Abort + AllocGlobal>(rt: &R, entries: usize) -> Vec<Entry> {
    let made = match Vec::with_capacity(rt.alloc(), entries) {
        Err(_) => Vec::with_capacity(rt.alloc(), entries),
        made => made,
    };
    match made {
        Ok(room) => room,
        Err(_) => panic!(rt; "no memory"),
    }
}

// The reply to a call, which is made again where there was no memory.
fn reply_at_last(rt: &impl Abort, scheduler: &mut Scheduler, ticket: u64, call: Call) -> Reply {
    let stamp = Stamp { seat: 0, ticket };
    let answer = match scheduler.call(stamp, call) {
        Err(Unrecorded::Memory) => scheduler.call(stamp, call),
        answer => answer,
    };
    match answer {
        Ok(reply) => reply,
        Err(_) => panic!(rt; "call {ticket}"),
    }
}

// The auditor takes an entry, judged again where there was no memory.
fn take_at_last(rt: &impl Abort, auditor: &mut Auditor, entry: &Entry) {
    let before = auditor.taken();
    let verdict = match auditor.judge(entry) {
        Err(JudgeFault::Memory) => auditor.judge(entry),
        verdict => verdict,
    };
    assert!(rt;
        verdict.is_ok() && auditor.taken() == before.saturating_add(1),
        "entry {before}"
    );
}

// The scheduler that goes on after what the auditor took.
fn resumed_at_last(rt: &impl Abort, auditor: Auditor) -> Scheduler {
    let resumed = match auditor.into_scheduler() {
        Err(back) => back.into_scheduler(),
        resumed => resumed,
    };
    match resumed {
        Ok(scheduler) => scheduler,
        Err(_) => panic!(rt; "no memory"),
    }
}

// A list with room for one entry comes back; with room for all what is kept is handed over, and the auditor takes it.
fn hand_over<R: Abort + AllocGlobal>(rt: &R, scheduler: &mut Scheduler, auditor: &mut Auditor) {
    let kept = scheduler.history().len();
    assert!(rt;
        scheduler.hand_over(room_at_last(rt, 1)).is_err() && scheduler.history().len() == kept
    );
    let Ok(HandedOver { first, entries }) = scheduler.hand_over(room_at_last(rt, KEPT as usize))
    else {
        panic!(rt; "there is room")
    };
    assert!(rt;
        first == auditor.taken() && entries.len() == kept && scheduler.history().is_empty()
    );
    for entry in &entries {
        take_at_last(rt, auditor, entry);
    }
    assert!(rt;
        auditor.taken() == scheduler.recorded() && scheduler.handed_over() == scheduler.recorded()
    );
}

// Makes the calls of all rows, and hands over wherever the scheduler is full, and at the end.
fn play<R: Abort + AllocGlobal>(rt: &R, scheduler: &mut Scheduler, auditor: &mut Auditor) {
    let mut ticket = 0;
    for row in &ROWS {
        if scheduler.history().len() == KEPT as usize {
            let answer = scheduler.call(Stamp { seat: 0, ticket }, row.0);
            assert!(rt;
                matches!(answer, Err(Unrecorded::HistoryFull)),
                "call {ticket}"
            );
            hand_over(rt, scheduler, auditor);
        }
        let _ = reply_at_last(rt, scheduler, ticket, row.0);
        ticket = scheduler.recorded();
    }
    hand_over(rt, scheduler, auditor);
}

// Whether two replies tell the same bytes of a flow, and where two MAPs start.
fn is_same(one: &Reply, other: &Reply) -> bool {
    match (one, other) {
        (Reply::Built(one), Reply::Built(other)) => one.start == other.start
            && one.ack == other.ack,
        (
            Reply::Flow {
                asked,
                granted,
                outstanding,
            },
            Reply::Flow {
                asked: other_asked,
                granted: other_granted,
                outstanding: other_outstanding,
            },
        ) => asked == other_asked && granted == other_granted && outstanding == other_outstanding,
        _ => false,
    }
}

#[test]
fn what_an_auditor_took_goes_on_as_the_scheduler_does(rt: HostRuntime) {
    let mut scheduler = scheduler_at_last(&rt);
    let mut auditor = auditor_at_last(&rt);
    play(&rt, &mut scheduler, &mut auditor);
    let wrong = Entry {
        stamp: Stamp { seat: 0, ticket: 8 },
        call: Call::Status(17),
        reply: Reply::Removed,
    };
    assert!(rt; matches!(auditor.judge(&wrong), Err(JudgeFault::Illegal)) && auditor.taken() == 8);
    let mut resumed = resumed_at_last(&rt, auditor);
    assert!(rt;
        resumed.history().is_empty() && resumed.recorded() == 8 && resumed.handed_over() == 8
    );
    for (place, call) in [Call::Status(17), Call::Build { now: 880 }]
        .iter()
        .enumerate()
    {
        let ticket = 8 + place as u64;
        let one = reply_at_last(&rt, &mut scheduler, ticket, *call);
        let other = reply_at_last(&rt, &mut resumed, ticket, *call);
        assert!(rt; is_same(&one, &other), "call {ticket}");
    }
    resumed.forget();
    assert!(rt;
        resumed.history().is_empty() && resumed.recorded() == 10 && scheduler.history().len() == 2
    );
}
