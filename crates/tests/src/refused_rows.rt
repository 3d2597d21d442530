//! What holds with any one request for memory refused: a call that found no memory is made again, and nothing was lost.
//! With ample memory these tests say the same; `checks/refused_growth` runs them with every request refused in turn.
//! Calls on a scheduler alone are made so from C, by `checks/from_c`.

ghost use Rattle.std.specs.Prelude.{◌≡◌, ◌∷◌, [], replicate};
ghost use Rattle.map_snapshot.specs.Maps.{unread};
ghost use Rattle.ticket_lock.specs.Standing.{seats_of};
ghost use Rattle.ticket_lock.specs.Calls.{new_standing};

mod handing_over;

use crate::base::{BASE, checked};
use crate::shared_sched_rows::version_read;
use flow_book::FlowSpec;
use map_snapshot::Reader;
use sched_calls::Amount;
use sched_history::{Call, Reply, Unrecorded};
use shared_sched::{Closed, Desk, OpenFault, Shared, open};
use std::alloc::AllocGlobal;
use std::process::Abort;
use std::sync::Wait;
use ticket_lock::Seat;

const VOICE: FlowSpec = FlowSpec::Unsolicited {
    size: 200,
    interval_us: 10_000,
    jitter_us: 800,
    grants: 1,
};

// The same telephone with two smaller grants in an interval, for which it needs another place.
const SMALLER: FlowSpec = FlowSpec::Unsolicited {
    size: 100,
    interval_us: 10_000,
    jitter_us: 800,
    grants: 2,
};

const DATA: FlowSpec = FlowSpec::BestEffort {
    priority: 3,
    rate: 0,
    burst: 0,
    peak: 0,
    reserved: 0,
    reserved_burst: 0,
};

const ASK: Call = Call::Ask {
    receiver: 0,
    sid: 17,
    amount: Amount::Bytes(100),
    heard: 801,
};

// Calls that are not refused, and the version that is read behind each.
const ROWS: [(Call, u64); 8] = [
    (Call::Admit(5, VOICE), 0),
    (Call::Build { now: 760 }, 1),
    (Call::Admit(17, DATA), 1),
    (ASK, 1),
    (Call::Build { now: 800 }, 2),
    (Call::Build { now: 840 }, 3),
    (Call::Change(5, SMALLER), 3),
    (Call::Status(17), 3),
];

// A scheduler with one seat and sixteen readers, opened again where there was no memory.
fn opened_at_last<R: Wait + Abort + AllocGlobal>(rt: &R) -> (Shared, Vec<Seat<Desk>>, Vec<Reader>)
    ensures seats { result.1.items ≡ new_standing result.0.lock 0 ∷ [] }
    ensures count { seats_of result.0.lock ≡ 1 }
    ensures readers { result.2.items ≡ replicate 16 (unread result.0.press) }
{
    match open(rt, rt.alloc(), checked(rt, BASE), 1, 16) {
        Ok(made) => made,
        Err(fault) => {
            assert!(rt; fault == OpenFault::Memory, "one seat");
            match open(rt, rt.alloc(), checked(rt, BASE), 1, 16) {
                Ok(made) => made,
                Err(_) => panic!(rt; "no memory"),
            }
        }
    }
}

// Makes a call, again where there was no memory: the version that was read before is read again then.
fn call_at_last<R: Wait + Abort>(
    rt: &R,
    shared: &Shared,
    seat: Seat<Desk>,
    reader: &mut Reader,
    call: Call,
) -> (Seat<Desk>, Result<Reply, Unrecorded>)
    requires own { seat.lock ≡ shared.now.lock }
    ensures own { result.0.lock ≡ shared.now.lock }
{
    let before = version_read(reader);
    match shared.call(rt, seat, call) {
        (seat, Err(Unrecorded::Memory)) => {
            assert!(rt; version_read(reader) == before, "{before}");
            shared.call(rt, seat, call)
        }
        answered => answered,
    }
}

// Where the telephone has its place then: in the first frame of its interval, and in the other of the cycle.
const PLACE: [u16; 4] = [4, 13, 4, 13];

// The call is recorded and not refused, and a change has its place.
fn is_accepted(answer: &Result<Reply, Unrecorded>) -> bool {
    match answer {
        Err(_) | Ok(Reply::Refused(_)) | Ok(Reply::Changed(None)) => false,
        Ok(Reply::Changed(Some(placement))) => {
            placement.reference == 1_204 && placement.starts.as_slice() == PLACE.as_slice()
        }
        Ok(_) => true,
    }
}

// Makes the calls of all rows by one seat.
fn play<R: Wait + Abort>(
    rt: &R,
    shared: &Shared,
    seat: Seat<Desk>,
    reader: &mut Reader,
) -> Seat<Desk>
    requires own { seat.lock ≡ shared.now.lock }
    ensures own { result.lock ≡ shared.now.lock }
{
    let mut seat = seat;
    for (place, row) in ROWS.iter().enumerate() {
        let (back, answer) = call_at_last(rt, shared, seat, reader, row.0);
        assert!(rt;
            is_accepted(&answer) && version_read(reader) == row.1,
            "call {place}"
        );
        seat = back;
    }
    seat
}

#[test]
fn a_call_that_found_no_memory_can_be_made_again(rt: HostRuntime) {
    let (shared, mut seats, mut readers) = opened_at_last(&rt);
    let (Some(seat), Some(mut reader)) = (seats.pop(), readers.pop()) else {
        unreachable!()
    };
    let seat = play(&rt, &shared, seat, &mut reader);
    if seats.push(seat).is_err() {
        panic!(rt; "a seat has left its place");
    }
    let Closed {
        history,
        first: _,
        counts,
        press,
    } = shared.close(seats);
    press.end(&rt);
    assert!(rt; history.len() == 8 && counts[0] == 8);
    assert!(rt; version_read(&mut reader) == 3);
}
