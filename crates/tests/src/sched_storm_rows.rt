//! Storms under gates: what a gate is asked and told, and what a storm makes of its answers. Storms whose gate lets all
//! calls pass are tried on the program, in checks/plain_runs.

mod gates;

use crate::base::{BASE, checked};
use gates::{MOST, Rule, Ruled};
use minislots::Config;
use sched_history::Call;
use sched_storm::{Tally, storm_with};
use std::alloc::{AllocError, AllocGlobal, Global};
use std::process::Abort;
use std::sync::Wait;
use std::test::Fail;
use std::thread::Threads;

// A storm under a gate, and what comes of it.
#[derive(Clone, Copy)]
struct Row {
    what: &'static str,
    rule: Rule,
    // A letter for each call: a build, or the status of a flow that is not live.
    scripts: [&'static str; 3],
    // How many calls are recorded.
    calls: u32,
    // The calls that are recorded of each worker, those that are not, and the MAPs.
    ends: [u64; 5],
    held: Option<usize>,
    // The seats of the entries, or none where the gate does not fix their order.
    order: &'static [u32],
}

// A storm that records all calls of a build and a question.
const PAIR: Row = Row {
    what: "a build and a question",
    rule: Rule::Counting(0, 3),
    scripts: ["b", "s", ""],
    calls: 1000,
    ends: [1, 1, 0, 0, 1],
    held: None,
    order: &[],
};

// A hundred questions.
const HUNDRED: &str = concat!(
    "ssssssssssssssssssssssssssssssssssssssssssssssssss",
    "ssssssssssssssssssssssssssssssssssssssssssssssssss",
);

const ROWS: [Row; 9] = [
    Row {
        what: "worker 0 never passes",
        rule: Rule::Counting(0, 0),
        ends: [0, 1, 0, 0, 0],
        held: Some(0),
        order: &[1],
        ..PAIR
    },
    Row {
        what: "worker 1 never passes",
        rule: Rule::Counting(1, 0),
        ends: [1, 0, 0, 0, 1],
        held: Some(1),
        order: &[0],
        ..PAIR
    },
    Row {
        what: "worker 0 waits for worker 1",
        rule: Rule::After(0, 1),
        order: &[1, 0],
        ..PAIR
    },
    Row {
        what: "worker 1 waits for worker 0",
        rule: Rule::After(1, 0),
        order: &[0, 1],
        ..PAIR
    },
    Row {
        what: "worker 0 waits for worker 1 beside a third",
        rule: Rule::After(0, 1),
        scripts: ["b", "s", HUNDRED],
        ends: [1, 1, 100, 0, 1],
        ..PAIR
    },
    Row {
        what: "worker 1 waits for worker 0 beside a third",
        rule: Rule::After(1, 0),
        scripts: ["b", "s", HUNDRED],
        ends: [1, 1, 100, 0, 1],
        ..PAIR
    },
    Row {
        what: "a gate is told of a call that was made",
        rule: Rule::Handover,
        order: &[0, 1],
        ..PAIR
    },
    Row {
        what: "a gate is told of a call that was not recorded",
        rule: Rule::FromTheLast(3),
        scripts: ["b", "b", "b"],
        calls: 1,
        ends: [0, 0, 1, 2, 1],
        order: &[2],
        ..PAIR
    },
    Row {
        what: "a worker asks again after a call that was not recorded",
        rule: Rule::Slow(1000),
        scripts: ["bss", "", ""],
        calls: 1,
        ends: [1, 0, 0, 2, 1],
        order: &[0],
        ..PAIR
    },
];

// The calls of a script.
fn calls_of(alloc: Global, script: &str) -> Result<Vec<Call>, AllocError> {
    let mut calls = Vec::new(alloc);
    for letter in script.bytes() {
        calls.push(match letter {
            b'b' => Call::Build { now: 760 },
            _ => Call::Status(17),
        })?;
    }
    Ok(calls)
}

// The tally of three scripts under this gate.
fn tally_of<R: Threads + Wait + Abort + AllocGlobal + Sync>(
    rt: &R,
    row: Row,
    gate: &Ruled,
) -> Result<Tally, Fail> {
    let config = checked(
        rt,
        Config {
            calls: row.calls,
            ..BASE
        },
    );
    let mut scripts = Vec::new(rt.alloc());
    for script in row.scripts {
        scripts.push(calls_of(rt.alloc(), script)?)?;
    }
    Ok(storm_with(rt, rt.alloc(), config, scripts, gate)?)
}

// The storm has this tally.
fn ends_so(rt: &impl Abort, row: Row, tally: &Tally) {
    let counts = &tally.counts;
    let ends = [
        counts[0],
        counts[1],
        counts[2],
        tally.unrecorded,
        tally.maps,
    ];
    assert!(rt; ends == row.ends, "{}: the counts", row.what);
    assert!(rt;
        tally.held == row.held && tally.legal,
        "{}: who is held",
        row.what
    );
    assert!(rt;
        tally.newest.unwrap_or(0) == tally.maps,
        "{}: the newest version",
        row.what
    );
    let made = tally.history.iter().map(|entry| entry.stamp.seat);
    let is_so = row.order.is_empty() || made.eq(row.order.iter().copied());
    assert!(rt; is_so, "{}: the order", row.what);
}

#[test]
fn a_storm_ends_as_its_gate_lets_it(rt: HostRuntime) -> Result<(), Fail> {
    for row in ROWS {
        let tally = tally_of(&rt, row, &Ruled::of(row.rule))?;
        ends_so(&rt, row, &tally);
    }
    Ok(())
}

// The gate was asked and told once of each of the calls allowed of three, and asked in vain of the next one.
fn is_asked(rt: &impl Abort, gate: &Ruled, worker: usize, allowed: usize) {
    for index in 0..3 {
        let (asked, told) = match index {
            _ if index < allowed => (1, 1),
            _ if index == allowed => (MOST, 0),
            _ => (0, 0),
        };
        assert!(rt;
            gate.asked.at(worker, index) == asked,
            "asked of call {index} of {worker}, {allowed}"
        );
        assert!(rt;
            gate.told.at(worker, index) == told,
            "told of call {index} of {worker}, {allowed}"
        );
    }
}

#[test]
fn a_worker_asks_before_each_call_and_tells_after_it(rt: HostRuntime) -> Result<(), Fail> {
    for (worker, allowed) in [(0, 3), (1, 3), (0, 1), (1, 2)] {
        let rule = Rule::Counting(worker, allowed);
        let gate = Ruled::of(rule);
        let row = Row {
            rule,
            scripts: ["sss", "sss", ""],
            ..PAIR
        };
        let tally = tally_of(&rt, row, &gate)?;
        assert!(rt;
            tally.held.is_none() == (allowed == 3),
            "{worker}, {allowed}"
        );
        is_asked(&rt, &gate, worker, allowed);
        is_asked(&rt, &gate, 1 - worker, 3);
    }
    Ok(())
}

#[test]
fn both_workers_are_within_a_gate_at_once(rt: HostRuntime) -> Result<(), Fail> {
    let gate = Ruled::of(Rule::Meeting);
    let tally = tally_of(&rt, PAIR, &gate)?;
    assert!(rt;
        gate.asked.at(0, 0) == 1 && gate.asked.at(1, 0) == 1,
        "neither asks in vain"
    );
    ends_so(&rt, PAIR, &tally);
    Ok(())
}
