//! A history that a reporter takes, with numbers worked out by hand.

use crate::base::{BASE, checked};
use flow_book::FlowSpec;
use minislots::Stamp;
use sched_calls::{Amount, Usage};
use sched_history::{Call, Scheduler};
use sched_report::Reporter;
use std::alloc::AllocGlobal;
use std::test::Fail;

// Two frames, the first with opportunities of 9 minislots that look like an idle, a poll and an open idle, the second
// with a data grant of 9; a request to nobody; a frame after others were left out, with an unsolicited grant of 4
// minislots, a poll of 2, and an opportunity of 5 that looks like a grant to the same flow; and one with two polls,
// since the unsolicited flow rests.
const CALLS: [Call; 18] = [
    Call::Reserve {
        usage: Usage::Quiet,
        slots: 3,
    },
    Call::Reserve {
        usage: Usage::Request(9),
        slots: 2,
    },
    Call::Reserve {
        usage: Usage::Request(16383),
        slots: 4,
    },
    Call::Build { now: 760 },
    Call::Admit(
        17,
        FlowSpec::BestEffort {
            priority: 3,
            rate: 0,
            burst: 0,
            peak: 0,
            reserved: 0,
            reserved_burst: 0,
        },
    ),
    Call::Ask {
        receiver: 0,
        sid: 17,
        amount: Amount::Bytes(100),
        heard: 800,
    },
    Call::Ask {
        receiver: 0,
        sid: 99,
        amount: Amount::Bytes(100),
        heard: 800,
    },
    Call::Build { now: 800 },
    Call::Admit(
        18,
        FlowSpec::Unsolicited {
            size: 32,
            interval_us: 1000,
            jitter_us: 0,
            grants: 1,
        },
    ),
    Call::Admit(
        19,
        FlowSpec::Polled {
            interval_us: 1000,
            jitter_us: 0,
            rate: 0,
            burst: 0,
            peak: 0,
        },
    ),
    Call::Reserve {
        usage: Usage::DataTo(18),
        slots: 5,
    },
    Call::Skip { now: 2000 },
    Call::Build { now: 2000 },
    Call::Rest(18),
    Call::Build { now: 2040 },
    Call::Wake(18),
    Call::Change(
        17,
        FlowSpec::BestEffort {
            priority: 4,
            rate: 0,
            burst: 0,
            peak: 0,
            reserved: 0,
            reserved_burst: 0,
        },
    ),
    Call::Replace {
        receiver: 0,
        sid: 17,
        amount: Amount::Bytes(0),
        heard: 800,
    },
];

#[test]
fn the_numbers_of_a_history_are_those_worked_out_by_hand(rt: HostRuntime) -> Result<(), Fail> {
    let config = checked(&rt, BASE);
    let mut scheduler = Scheduler::open(rt.alloc(), config)?;
    let mut reporter = Reporter::open(rt.alloc(), config)?;
    let stamp = Stamp { seat: 0, ticket: 0 };
    for call in CALLS {
        let _ = scheduler.call(stamp, call)?;
    }
    for entry in scheduler.history() {
        reporter.take(entry)?;
    }
    let totals = reporter.totals();
    assert!(rt; totals.frames == 4 && totals.skips == 1);
    assert!(rt; totals.from == Some(800) && totals.to == Some(2120));
    let calls = totals.calls;
    assert!(rt; calls.build == 4 && calls.admit == 3 && calls.ask == 2 && calls.skip == 1);
    assert!(rt; calls.replace == 1 && calls.change == 1 && calls.rest == 1 && calls.wake == 1);
    assert!(rt; calls.heard == 0 && calls.remove == 0 && calls.status == 0 && calls.reserve == 4);
    let slots = totals.slots;
    assert!(rt; slots.request == 16 && slots.data_grants == 9 && slots.idle == 111);
    assert!(rt; slots.unsolicited == 4 && slots.poll == 6 && slots.opportunity == 14);
    assert!(rt; slots.open_idle == 0);
    for (place, count) in reporter.refused().iter().enumerate() {
        assert!(rt;
            *count == u64::from(place == 6),
            "the request to nobody alone is refused"
        );
    }
    assert!(rt; reporter.lives() == 3, "three flows were admitted");
    let life = reporter.life(0);
    assert!(rt; life.sid == 17 && life.from == 840 && life.to == 2120 && !life.ended);
    assert!(rt;
        reporter.life(1).granted == 32,
        "an opportunity to send is no grant"
    );
    let sums = life.sums;
    assert!(rt; sums.asks == 1 && sums.asked == 100 && sums.granted == 100);
    let delays = sums.delays;
    assert!(rt; delays.served == 1 && delays.least == Some(53) && delays.greatest == Some(53));
    Ok(())
}
