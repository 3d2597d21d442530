//! The state of a scheduler, and its text, beside numbers that are worked out by hand.

use crate::base::BASE;
use minislots::Stamp;
use sched_calls::{Amount, BatchState, ChannelState, FlowSpec, Opportunity, Usage};
use sched_history::{Auditor, Call, Scheduler};
use state_text::{read_state, state_text};
use std::alloc::{AllocGlobal, Global};
use std::test::Fail;

// 64000 bits in a second, and 1600 bytes at once.
const LIMITED: FlowSpec = FlowSpec::BestEffort {
    priority: 3,
    rate: 64_000,
    burst: 1600,
    peak: 0,
    reserved: 0,
    reserved_burst: 0,
};

// 640000 bits in a second at its peak, of which 512000 are reserved, in bursts of the quantum.
const RESERVING: FlowSpec = FlowSpec::BestEffort {
    priority: 3,
    rate: 0,
    burst: 0,
    peak: 640_000,
    reserved: 512_000,
    reserved_burst: 64,
};

const VOICE: FlowSpec = FlowSpec::Unsolicited {
    size: 200,
    interval_us: 10_000,
    jitter_us: 800,
    grants: 1,
};

fn ask(bytes: u32, heard: u64) -> Call {
    Call::Ask {
        receiver: 0,
        sid: 17,
        amount: Amount::Bytes(bytes),
        heard,
    }
}

const STATION: Opportunity = Opportunity {
    usage: Usage::Station(9),
    slots: 36,
};

// What a scheduler tells after these calls, without its entries, and an auditor of the entries.
fn told(alloc: Global, calls: &[Call]) -> Result<[ChannelState; 2], Fail> {
    let mut scheduler = Scheduler::open(alloc, BASE.check()?)?;
    let mut auditor = Auditor::open(alloc, BASE.check()?)?;
    for (ticket, call) in calls.iter().enumerate() {
        let stamp = Stamp {
            seat: 0,
            ticket: ticket as u64,
        };
        auditor.judge(scheduler.record(stamp, *call)?)?;
    }
    scheduler.forget();
    Ok([scheduler.state()?, auditor.state()?])
}

// A flow is granted 544 of 1000 bytes from 844 on, in the 34 minislots of 16 bytes that the first frame with its
// request
// leaves, and asks for 100 more. Another is placed, a window of all other minislots of a frame waits for one without
// requests, and all that was heard before 845 was handed in.
#[test]
fn a_state_has_what_goes_on(rt: HostRuntime) -> Result<(), Fail> {
    let calls = [
        Call::Build { now: 760 },
        Call::Admit(17, LIMITED),
        ask(1000, 801),
        Call::Build { now: 800 },
        ask(100, 845),
        Call::Heard {
            receiver: 0,
            upto: 845,
        },
        Call::Admit(21, VOICE),
        Call::Reserve {
            usage: STATION.usage,
            slots: u32::from(STATION.slots),
        },
    ];
    for state in told(rt.alloc(), &calls)? {
        assert!(rt; state.entries == 8 && state.next == 880 && state.ack == 800);
        assert!(rt; state.progress.as_slice() == [845].as_slice());
        assert!(rt; state.ucd_count == 1 && state.change.is_none());
        let [data, voice] = state.flows.as_slice() else {
            return Err("two flows are live".into());
        };
        assert!(rt; data.sid == 17 && data.spec == LIMITED && data.asked == 1100);
        assert!(rt; data.granted == 544 && data.last == Some(844));
        assert!(rt; data.sustained == Some(1_351_680_000));
        assert!(rt; data.peak.is_none() && data.reserved.is_none() && data.place.is_none());
        let batches = BatchState {
            end: 1000,
            first: 801,
            second: Some(845),
        };
        assert!(rt; data.batches == Some(batches));
        assert!(rt; voice.sid == 21 && voice.last.is_none() && voice.batches.is_none());
        let Some(place) = &voice.place else {
            return Err("a telephone has a place".into());
        };
        assert!(rt;
            place.offset == 4 && !place.rests && place.starts.as_slice() == [4, 4].as_slice()
        );
        let [waiting] = state.reserves.as_slice() else {
            return Err("a Reserve waits".into());
        };
        assert!(rt; waiting.maps == 0 && waiting.opportunity == STATION);
    }
    Ok(())
}

// A flow is granted 64 of 1000 bytes at 844, under its reservation, and at 850 the 448 that the frame leaves, not under
// it. At 844 nothing was left of the reservation: at 850 that has what 6 minislots brought, 2048000 each, and the peak
// rate has brought 2560000 in each of them.
#[test]
fn a_state_has_each_level_at_the_last_grant(rt: HostRuntime) -> Result<(), Fail> {
    let calls = [
        Call::Build { now: 760 },
        Call::Admit(17, RESERVING),
        ask(1000, 801),
        Call::Build { now: 800 },
    ];
    for state in told(rt.alloc(), &calls)? {
        let [data] = state.flows.as_slice() else {
            return Err("one flow is live".into());
        };
        assert!(rt; data.granted == 512 && data.last == Some(850));
        assert!(rt; data.sustained.is_none() && data.peak == Some(1_308_160_000));
        assert!(rt; data.reserved == Some(12_288_000));
    }
    Ok(())
}

// A flow waits for 1000 bytes, and a window of station maintenance for the next MAP.
const WAITING: &str =
    "{\"ack\":800,\"change\":null,\"entries\":4,\"flows\":[{\"asked\":1000,\"batches\":\
    {\"end\":1000,\"first\":801,\"second\":null},\"flow\":{\"burst\":1600,\"kind\":\"best_effort\",\"priority\":3,\
    \"rate\":64000},\"granted\":0,\"last\":null,\"peak\":null,\"place\":null,\"reserved\":null,\"sid\":17,\
    \"sustained\":2048000000}],\"header\":{\"data_end\":0,\"data_start\":0,\"ranging_end\":0,\"ranging_start\":0,\
    \"ucd_count\":1},\"next\":840,\"progress\":[800],\"reserves\":[{\"maps\":0,\"sid\":9,\"slots\":36,\
    \"usage\":\"station\"}],\"ucd_count\":1}";

// The text of a state has its keys in ascending order. It is read back, and a text without most members is not one.
#[test]
fn a_state_is_read_back_from_its_text(rt: HostRuntime) -> Result<(), Fail> {
    let alloc = rt.alloc();
    let calls = [
        Call::Build { now: 760 },
        Call::Admit(17, LIMITED),
        ask(1000, 801),
        Call::Reserve {
            usage: STATION.usage,
            slots: u32::from(STATION.slots),
        },
    ];
    for state in told(alloc, &calls)? {
        assert!(rt; state_text(alloc, &state)?.as_slice() == WAITING.as_bytes());
    }
    let Some(again) = read_state(alloc, WAITING.as_bytes())? else {
        return Err("the text is one of a state".into());
    };
    assert!(rt; state_text(alloc, &again)?.as_slice() == WAITING.as_bytes());
    assert!(rt; read_state(alloc, b"{\"ack\":800}")?.is_none());
    Ok(())
}
