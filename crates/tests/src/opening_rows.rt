//! A book and a table that go on from a possible state, beside numbers that are worked out by hand. Memory is there, so
//! each is opened.

ghost use Rattle.std.specs.Prelude.{◌≡◌, IfOk};
ghost use Rattle.std.specs.List.{AllByRecursion};
ghost use Rattle.flow_book.specs.Choice.{HasStartedBy};

use crate::base::BASE;
use channel_states::fault_of;
use flow_book::{Book, FlowSpec};
use minislots::Checked;
use periodic::{MAX_SPOTS, Spot, Starts, Table};
use sched_calls::{
    BatchState, ChannelState, FlowState, FlowStates, Header, PlaceState, Progress, ReserveStates,
};
use std::alloc::{AllocError, AllocGlobal, Global};
use std::test::Fail;

const FREE: FlowSpec = FlowSpec::BestEffort {
    priority: 3,
    rate: 0,
    burst: 0,
    peak: 0,
    reserved: 0,
    reserved_burst: 0,
};

// 64000 bits in a second, and 1600 bytes at once.
const LIMITED: FlowSpec = FlowSpec::BestEffort {
    priority: 3,
    rate: 64_000,
    burst: 1600,
    peak: 0,
    reserved: 0,
    reserved_burst: 0,
};

// 640000 bits in a second at its peak, of which 512000 are reserved, in bursts of the quantum.
const RESERVING: FlowSpec = FlowSpec::BestEffort {
    priority: 3,
    rate: 0,
    burst: 0,
    peak: 640_000,
    reserved: 512_000,
    reserved_burst: 64,
};

// 15 minislots in each tenth frame.
const VOICE: FlowSpec = FlowSpec::Unsolicited {
    size: 200,
    interval_us: 10_000,
    jitter_us: 800,
    grants: 1,
};

// A poll in each twentieth frame.
const POLLED: FlowSpec = FlowSpec::Polled {
    interval_us: 20_000,
    jitter_us: 800,
    rate: 0,
    burst: 0,
    peak: 0,
};

// A flow without rates that asked for nothing.
fn silent(sid: u16, spec: FlowSpec, place: Option<PlaceState>) -> FlowState {
    FlowState {
        sid,
        spec,
        asked: 0,
        granted: 0,
        last: None,
        sustained: None,
        peak: None,
        reserved: None,
        batches: None,
        place,
    }
}

// One that asked for so many bytes and was granted so many, the last of them from a minislot on. Those that wait were
// asked for at another.
fn waiting(
    sid: u16,
    spec: FlowSpec,
    asked: u64,
    granted: (u64, Option<u64>),
    first: u64,
) -> FlowState {
    let mut flow = silent(sid, spec, None);
    flow.asked = asked;
    (flow.granted, flow.last) = granted;
    flow.batches = Some(BatchState {
        end: asked,
        first,
        second: None,
    });
    flow
}

// A place with these starts.
fn place(
    alloc: Global,
    phase: u64,
    offset: u64,
    starts: &[u16],
    rests: bool,
) -> Result<Option<PlaceState>, AllocError> {
    let starts = Starts::from_vec(Vec::from_slice(alloc, starts)?);
    Ok(Some(PlaceState {
        phase,
        offset,
        starts,
        rests,
    }))
}

// Flows of all kinds behind the MAP of the frame that starts at 840. One has 100 bytes under its ceiling and asked in
// two batches, one is not under its reservation at its last grant, and one asked for bytes though it takes no requests.
fn flows(alloc: Global) -> Result<Vec<FlowState>, AllocError> {
    let mut limited = waiting(18, LIMITED, 1100, (544, Some(844)), 801);
    limited.sustained = Some(128_000_000);
    limited.batches = Some(BatchState {
        end: 1000,
        first: 801,
        second: Some(845),
    });
    let mut reserving = waiting(20, RESERVING, 1000, (512, Some(850)), 820);
    reserving.peak = Some(1_308_160_000);
    reserving.reserved = Some(12_288_000);
    let mut voice = waiting(21, VOICE, 64, (8, Some(840)), 810);
    voice.place = place(alloc, 0, 4, &[4, 4], false)?;
    let mut flows = Vec::new(alloc);
    flows.push(waiting(17, FREE, 700, (600, Some(850)), 830))?;
    flows.push(limited)?;
    flows.push(waiting(19, FREE, 48, (0, None), 841))?;
    flows.push(reserving)?;
    flows.push(voice)?;
    flows.push(silent(22, VOICE, place(alloc, 3, 6, &[6, 9], true)?))?;
    flows.push(silent(23, POLLED, place(alloc, 13, 30, &[31], false)?))?;
    flows.push(silent(24, FREE, None))?;
    Ok(flows)
}

// A state with these flows.
fn state_with(alloc: Global, flows: Vec<FlowState>) -> Result<ChannelState, AllocError>
    ensures { IfOk result (λ state. state.next ≡ 880) }
{
    Ok(ChannelState {
        entries: 20,
        next: 880,
        progress: Progress::from_vec(Vec::from_slice(alloc, &[860])?),
        ack: 800,
        header: Header {
            ucd_count: 1,
            ranging_start: 0,
            ranging_end: 0,
            data_start: 0,
            data_end: 0,
        },
        ucd_count: 1,
        change: None,
        flows: FlowStates::from_vec(flows),
        reserves: ReserveStates::from_vec(Vec::new(alloc)),
    })
}

// A book that goes on from a state.
fn book_at(alloc: Global, state: &ChannelState) -> Result<Book, Fail>
    ensures { IfOk result (λ book. AllByRecursion (HasStartedBy state.now.next) book.flows) }
{
    let config = BASE.check()?;
    if fault_of(&config, state).is_some() {
        return Err("the state is possible".into());
    }
    Ok(Book::open_at(alloc, config, state.flows.as_slice())?)
}

// A table that goes on from it.
fn table_at(alloc: Global, state: &ChannelState) -> Result<Table, Fail> {
    let config = BASE.check()?;
    if fault_of(&config, state).is_some() {
        return Err("the state is possible".into());
    }
    Ok(Table::open_at(alloc, config, state.flows.as_slice())?)
}

// Whether two states tell the same of a flow, but for its place.
fn is_same(told: &FlowState, given: &FlowState) -> bool {
    let numbers = told.sid == given.sid
        && told.asked == given.asked
        && told.granted == given.granted;
    let levels = told.sustained == given.sustained
        && told.peak == given.peak
        && told.reserved == given.reserved;
    let is_last = told.last == given.last && told.batches == given.batches;
    numbers && levels && is_last && told.spec == given.spec
}

// What a book tells behind an opening is what it was opened from. Only the sums of a flow that takes no requests are
// none.
#[test]
fn a_book_tells_the_flows_of_a_state(rt: HostRuntime) -> Result<(), Fail> {
    let alloc = rt.alloc();
    let state = state_with(alloc, flows(alloc)?)?;
    let book = book_at(alloc, &state)?;
    assert!(rt; book.len() == 8);
    for (index, flow) in state.flows.as_slice().iter().enumerate() {
        let sid = flow.sid;
        assert!(rt; index < book.len(), "flow {sid}");
        assert!(rt; is_same(&book.state_at(index), flow), "state of {sid}");
    }
    for (sid, sums) in [
        (17, (700, 100)),
        (18, (1100, 556)),
        (21, (0, 0)),
        (24, (0, 0)),
    ] {
        assert!(rt; book.flow(sid).is_some(), "flow {sid}");
        assert!(rt; book.sums(sid) == sums, "sums of {sid}");
    }
    Ok(())
}

// A flow that takes no requests is not served, also where all others have what they asked for.
#[test]
fn a_flow_that_takes_no_requests_is_not_served(rt: HostRuntime) -> Result<(), Fail> {
    let alloc = rt.alloc();
    let mut voice = waiting(21, VOICE, 64, (8, Some(840)), 810);
    voice.place = place(alloc, 0, 4, &[4, 4], false)?;
    let mut flows = Vec::new(alloc);
    flows.push(silent(17, FREE, None))?;
    flows.push(voice)?;
    let state = state_with(alloc, flows)?;
    let book = book_at(alloc, &state)?;
    assert!(rt; book.eligible(880, 40).is_none());
    assert!(rt; book.flow(21) == Some(VOICE) && book.outstanding(21) == 56);
    let mut overlay = book.overlay()?;
    assert!(rt; overlay.serve(880, 40).is_none());
    Ok(())
}

const fn spot(sid: u16, size: Option<u32>, offset: u16, slots: u16) -> Spot {
    Spot {
        sid,
        size,
        offset,
        slots,
    }
}

// One telephone has its grants in the first frame of each ten. Another, in the fourth of each ten, rests and is polled
// where these would start, in the second of its frames beside the poll of a third flow.
#[test]
fn the_places_of_a_state_have_their_frames(rt: HostRuntime) -> Result<(), Fail> {
    let alloc = rt.alloc();
    let state = state_with(alloc, flows(alloc)?)?;
    let table = table_at(alloc, &state)?;
    let none = spot(0, None, 0, 0);
    let mut spots = [none; MAX_SPOTS];
    for k in [20, 30, 410] {
        let count = table.in_frame(k, &mut spots);
        assert!(rt;
            count == 1 && spots[0] == spot(21, Some(200), 4, 15),
            "frame {k}"
        );
    }
    assert!(rt; table.in_frame(23, &mut spots) == 1 && spots[0] == spot(22, None, 6, 2));
    assert!(rt; table.in_frame(33, &mut spots) == 2 && spots[0] == spot(22, None, 9, 2));
    assert!(rt; spots[1] == spot(23, None, 31, 2));
    assert!(rt; table.in_frame(21, &mut spots) == 0);
    Ok(())
}
