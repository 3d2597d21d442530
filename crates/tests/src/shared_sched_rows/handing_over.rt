//! Three seats that call in turns, and hand over what is kept wherever the scheduler is full.

ghost use Rattle.std.specs.Prelude.{◌≡◌};
ghost use Rattle.ticket_lock.specs.Standing.{seats_of};

use crate::base::{BASE, checked};
use flow_book::FlowSpec;
use map_build::FrameMap;
use minislots::Config;
use sched_calls::Amount;
use sched_history::{Call, Entry, HandedOver, Reply, Scheduler, Unrecorded};
use shared_sched::{Closed, Desk, Shared, open, open_without_end};
use std::alloc::AllocGlobal;
use std::process::Abort;
use std::sync::Wait;
use ticket_lock::Seat;

// Entries that the scheduler keeps.
const KEPT: u32 = 2;

const DATA: FlowSpec = FlowSpec::BestEffort {
    priority: 3,
    rate: 0,
    burst: 0,
    peak: 0,
    reserved: 0,
    reserved_burst: 0,
};

const ASK: Call = Call::Ask {
    receiver: 0,
    sid: 17,
    amount: Amount::Bytes(100),
    heard: 801,
};

// The calls, which three seats make in turns.
const CALLS: [Call; 9] = [
    Call::Admit(17, DATA),
    Call::Build { now: 760 },
    ASK,
    Call::Build { now: 800 },
    Call::Status(17),
    Call::Remove(18),
    ASK,
    Call::Remove(17),
    Call::Admit(17, DATA),
];

// A scheduler with three seats that keeps two entries.
fn opened<R: Wait + Abort + AllocGlobal>(rt: &R) -> (Shared, Seat<Desk>, Seat<Desk>, Seat<Desk>)
    ensures zero { result.1.lock ≡ result.0.lock }
    ensures one { result.2.lock ≡ result.0.lock }
    ensures two { result.3.lock ≡ result.0.lock }
    ensures count { seats_of result.0.lock ≡ 3 }
{
    let config = checked(
        rt,
        Config {
            calls: KEPT,
            ..BASE
        },
    );
    let Ok((shared, mut seats, _readers)) = open_without_end(rt, rt.alloc(), config, 3, 0) else {
        panic!(rt; "no memory")
    };
    let two = seats.pop();
    let one = seats.pop();
    let zero = seats.pop();
    let (Some(zero), Some(one), Some(two)) = (zero, one, two) else {
        unreachable!()
    };
    seats.destroy_empty();
    (shared, zero, one, two)
}

// An empty list with room for so many entries.
fn room<R: Abort + AllocGlobal>(rt: &R, entries: usize) -> Vec<Entry> {
    match Vec::with_capacity(rt.alloc(), entries) {
        Ok(room) => room,
        Err(_) => panic!(rt; "no memory"),
    }
}

// A scheduler that hands nothing over.
fn plain<R: Abort + AllocGlobal>(rt: &R) -> Scheduler {
    match Scheduler::open(rt.alloc(), checked(rt, BASE)) {
        Ok(scheduler) => scheduler,
        Err(_) => panic!(rt; "no memory"),
    }
}

// Whether two MAPs are the same.
fn is_same_map(one: &FrameMap, other: &FrameMap) -> bool {
    one.start == other.start
        && one.ack == other.ack
        && one.wire.elements.as_slice() == other.wire.elements.as_slice()
}

// Whether two replies are the same.
fn is_same(one: &Reply, other: &Reply) -> bool {
    match (one, other) {
        (Reply::Admitted(None), Reply::Admitted(None)) => true,
        (Reply::Removed, Reply::Removed) => true,
        (Reply::Taken, Reply::Taken) => true,
        (Reply::Refused(one), Reply::Refused(other)) => one == other,
        (Reply::Built(one), Reply::Built(other)) => is_same_map(one, other),
        (
            Reply::Flow {
                asked: one,
                granted: given,
                ..
            },
            Reply::Flow { asked, granted, .. },
        ) => one == asked && given == granted,
        _ => false,
    }
}

// The entry is the next one: its call and its seat are those of its place, and the reply is what a scheduler that hands
// nothing over gives.
fn is_next(rt: &impl Abort, plain: &mut Scheduler, entry: &Entry) {
    let place = plain.recorded() as usize;
    let is_its = CALLS.get(place) == Some(&entry.call) && entry.stamp.seat as usize == place % 3;
    assert!(rt; is_its, "entry {place}");
    let Ok(reply) = plain.call(entry.stamp, entry.call) else {
        panic!(rt; "no memory")
    };
    assert!(rt; is_same(&reply, &entry.reply), "the reply of entry {place}");
}

// These entries are the next ones, from this place on.
fn are_next(rt: &impl Abort, plain: &mut Scheduler, first: u64, entries: &[Entry]) {
    assert!(rt; first == plain.recorded(), "place {first}");
    for entry in entries {
        is_next(rt, plain, entry);
    }
}

// This seat hands over what is kept. A list that has room for less comes back before, and changes nothing.
fn hand_over<R: Wait + Abort + AllocGlobal>(
    rt: &R,
    shared: &Shared,
    seat: Seat<Desk>,
    plain: &mut Scheduler,
) -> Seat<Desk>
    requires own { seat.lock ≡ shared.now.lock }
    ensures own { result.lock ≡ shared.now.lock }
{
    let (seat, answer) = shared.hand_over(rt, seat, room(rt, 1));
    assert!(rt; answer.is_err(), "a list with room for one entry");
    let (seat, answer) = shared.hand_over(rt, seat, room(rt, KEPT as usize));
    let Ok(HandedOver { first, entries }) = answer else {
        panic!(rt; "a list with room comes back")
    };
    assert!(rt; entries.len() == KEPT as usize, "what was kept");
    are_next(rt, plain, first, &entries);
    seat
}

// Makes a call by this seat, which is recorded.
fn call<R: Wait + Abort>(rt: &R, shared: &Shared, seat: Seat<Desk>, call: Call) -> Seat<Desk>
    requires own { seat.lock ≡ shared.now.lock }
    ensures own { result.lock ≡ shared.now.lock }
{
    let (seat, answer) = shared.call(rt, seat, call);
    assert!(rt; answer.is_ok(), "{call:?}");
    seat
}

// Makes a call by this seat where the scheduler is full: it is not recorded. Behind a hand-over it is.
fn call_when_full<R: Wait + Abort + AllocGlobal>(
    rt: &R,
    shared: &Shared,
    seat: Seat<Desk>,
    plain: &mut Scheduler,
    made: Call,
) -> Seat<Desk>
    requires own { seat.lock ≡ shared.now.lock }
    ensures own { result.lock ≡ shared.now.lock }
{
    let (seat, answer) = shared.call(rt, seat, made);
    assert!(rt; matches!(answer, Err(Unrecorded::HistoryFull)), "{made:?}");
    let seat = hand_over(rt, shared, seat, plain);
    call(rt, shared, seat, made)
}

// Closes the scheduler: what it keeps is the next, and each seat made three calls.
fn close<R: Wait + Abort + AllocGlobal>(
    rt: &R,
    shared: Shared,
    seats: (Seat<Desk>, Seat<Desk>, Seat<Desk>),
    plain: &mut Scheduler,
)
    requires zero { seats.0.lock ≡ shared.lock }
    requires one { seats.1.lock ≡ shared.lock }
    requires two { seats.2.lock ≡ shared.lock }
    requires count { seats_of shared.lock ≡ 3 }
{
    let (zero, one, two) = seats;
    let Ok(mut row) = Vec::with_capacity(rt.alloc(), 3) else {
        panic!(rt; "no memory")
    };
    row.push_reserved(zero);
    row.push_reserved(one);
    row.push_reserved(two);
    let Closed {
        history,
        first,
        counts,
        press,
    } = shared.close(row);
    press.end(rt);
    are_next(rt, plain, first, &history);
    assert!(rt;
        counts[0] == 3 && counts[1] == 3 && counts[2] == 3,
        "the counts"
    );
}

#[test]
fn what_seats_hand_over_in_turns_and_what_is_left_is_the_whole_history(rt: HostRuntime) {
    let mut plain = plain(&rt);
    let (shared, zero, one, two) = opened(&rt);
    let zero = call(&rt, &shared, zero, CALLS[0]);
    let one = call(&rt, &shared, one, CALLS[1]);
    let two = call_when_full(&rt, &shared, two, &mut plain, CALLS[2]);
    let zero = call(&rt, &shared, zero, CALLS[3]);
    let one = call_when_full(&rt, &shared, one, &mut plain, CALLS[4]);
    let two = call(&rt, &shared, two, CALLS[5]);
    let zero = call_when_full(&rt, &shared, zero, &mut plain, CALLS[6]);
    let one = call(&rt, &shared, one, CALLS[7]);
    let two = call_when_full(&rt, &shared, two, &mut plain, CALLS[8]);
    close(&rt, shared, (zero, one, two), &mut plain);
    assert!(rt; plain.recorded() == 9, "the whole history");
}

#[test]
fn a_scheduler_that_keeps_its_whole_history_hands_nothing_over(rt: HostRuntime) {
    let opened = open(&rt, rt.alloc(), checked(&rt, BASE), 1, 0);
    let Ok((shared, mut seats, _readers)) = opened else {
        panic!(rt; "no memory")
    };
    let Some(seat) = seats.pop() else {
        unreachable!()
    };
    let seat = call(&rt, &shared, seat, Call::Status(17));
    let (seat, answer) = shared.hand_over(&rt, seat, room(&rt, 1000));
    assert!(rt; answer.is_err(), "the list comes back");
    seats.push_reserved(seat);
    let Closed {
        history,
        first,
        counts: _,
        press,
    } = shared.close(seats);
    press.end(&rt);
    assert!(rt; first == 0 && history.len() == 1, "what is kept");
}
