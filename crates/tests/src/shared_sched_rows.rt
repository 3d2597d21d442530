//! A scheduler that two seats share, and a reader of its MAPs.

ghost use Rattle.std.specs.Prelude.{◌≡◌, replicate};
ghost use Rattle.map_snapshot.specs.Maps.{unread};
ghost use Rattle.ticket_lock.specs.Standing.{seats_of};
ghost use Rattle.ticket_lock.specs.Calls.{new_standing};

use crate::base::{BASE, checked};
use map_build::FrameMap;
use map_codec::decode;
use map_snapshot::{Printed, Reader};
use minislots::{Config, Stamp};
use sched_history::{Call, Entry, Refusal, Reply, Unrecorded};
use shared_sched::{Closed, Desk, Shared, open};
use std::alloc::{AllocGlobal, Global};
use std::process::Abort;
use std::sync::Wait;
use ticket_lock::Seat;

mod handing_over;
mod threads;

// A scheduler with two seats and so many readers, which records so many calls.
fn opened<R: Wait + Abort + AllocGlobal>(
    rt: &R,
    calls: u32,
    readers: usize,
) -> (Shared, Seat<Desk>, Seat<Desk>, Vec<Reader>)
    ensures zero { result.1 ≡ new_standing result.0.lock 0 }
    ensures one { result.2 ≡ new_standing result.0.lock 1 }
    ensures count { seats_of result.0.lock ≡ 2 }
    ensures readers { result.3.items ≡ replicate readers (unread result.0.press) }
{
    let config = checked(rt, Config { calls, ..BASE });
    let Ok((shared, mut seats, readers)) = open(rt, rt.alloc(), config, 2, readers) else {
        panic!(rt; "no memory")
    };
    let one = seats.pop();
    let zero = seats.pop();
    let (Some(zero), Some(one)) = (zero, one) else {
        unreachable!()
    };
    seats.destroy_empty();
    (shared, zero, one, readers)
}

// A scheduler with two seats and a reader, which records so many calls.
fn watched<R: Wait + Abort + AllocGlobal>(
    rt: &R,
    calls: u32,
) -> (Shared, Seat<Desk>, Seat<Desk>, Reader)
    ensures zero { result.1 ≡ new_standing result.0.lock 0 }
    ensures one { result.2 ≡ new_standing result.0.lock 1 }
    ensures count { seats_of result.0.lock ≡ 2 }
    ensures reader { result.3 ≡ unread result.0.press }
{
    let (shared, zero, one, mut readers) = opened(rt, calls, 1);
    let Some(reader) = readers.pop() else {
        unreachable!()
    };
    (shared, zero, one, reader)
}

// Closes a scheduler with two seats, and ends its press: the history, and how many calls each seat has recorded.
fn close_pair<R: Wait + Abort + AllocGlobal>(
    rt: &R,
    shared: Shared,
    zero: Seat<Desk>,
    one: Seat<Desk>,
) -> (Vec<Entry>, [u64; 2])
    requires zero { zero.lock ≡ shared.lock }
    requires one { one.lock ≡ shared.lock }
    requires count { seats_of shared.lock ≡ 2 }
{
    let Ok(mut seats) = Vec::with_capacity(rt.alloc(), 2) else {
        panic!(rt; "no memory")
    };
    seats.push_reserved(zero);
    seats.push_reserved(one);
    let Closed {
        history,
        first: _,
        counts,
        press,
    } = shared.close(seats);
    press.end(rt);
    (history, [counts[0], counts[1]])
}

// Whether what was read is this MAP: the two have the same fields and elements.
fn is_map(alloc: Global, read: &Printed, map: &FrameMap) -> bool {
    let Some(bytes) = read.bytes.get(..read.len) else {
        return false;
    };
    let Ok(found) = decode(alloc, bytes) else {
        return false;
    };
    found.alloc_start == map.wire.alloc_start
        && found.ack == map.wire.ack
        && found.elements.as_slice() == map.wire.elements.as_slice()
}

/// The version that a reader reads, or 0.
pub fn version_read(reader: &mut Reader) -> u64
    ensures press { reader.new.press ≡ reader.old.press }
{
    match reader.newest() {
        Some(printed) => printed.version,
        None => 0,
    }
}

// What a call is answered, and the version that is read behind it.
#[derive(Clone, Copy)]
enum Answer {
    Map(u64),
    Refused(Refusal, u64),
    Full(u64),
}

// Makes a call by this seat, which is answered so. Behind a build its MAP is read.
fn answers<R: Wait + Abort + AllocGlobal>(
    rt: &R,
    shared: &Shared,
    seat: Seat<Desk>,
    reader: &mut Reader,
    call: Call,
    expected: Answer,
) -> Seat<Desk>
    requires own { seat.lock ≡ shared.now.lock }
    ensures own { result.lock ≡ shared.now.lock }
{
    let (seat, answer) = shared.call(rt, seat, call);
    let Some(read) = reader.newest() else {
        panic!(rt; "nothing is read")
    };
    let (is_so, version) = match (answer, expected) {
        (Ok(Reply::Built(map)), Answer::Map(version)) => (is_map(rt.alloc(), &read, &map), version),
        (Ok(Reply::Refused(found)), Answer::Refused(refusal, version)) => (
            found == refusal,
            version,
        ),
        (Err(Unrecorded::HistoryFull), Answer::Full(version)) => (true, version),
        _ => (false, 0),
    };
    assert!(rt;
        is_so && read.version == version,
        "{call:?}, version {}",
        read.version
    );
    seat
}

// The calls of each of two seats are recorded, in the order of their tickets.
fn has_one_each(rt: &impl Abort, closed: (Vec<Entry>, [u64; 2])) {
    let stamps = [Stamp { seat: 0, ticket: 0 }, Stamp { seat: 1, ticket: 1 }];
    let (history, counts) = closed;
    let made = history.iter().map(|entry| entry.stamp);
    assert!(rt; made.eq(stamps) && counts == [1, 1], "the stamps");
}

#[test]
fn the_second_ticket_reads_the_build_of_the_first(rt: HostRuntime) {
    let (shared, zero, one, mut reader) = watched(&rt, 1000);
    let lock = shared.lock();
    let zero = lock.draw(zero);
    let one = lock.draw(one);
    assert!(rt; zero.number() == 0 && one.number() == 1, "the tickets");
    let one = match lock.try_enter(one) {
        Ok(_entered) => panic!(rt; "ticket 1 is not served"),
        Err(back) => back,
    };
    let (held, desk) = match lock.try_enter(zero) {
        Ok(entered) => entered,
        Err(_back) => panic!(rt; "ticket 0 is served"),
    };
    let (zero, answer) = shared.call_held(&rt, held, desk, Call::Build { now: 760 });
    assert!(rt;
        matches!(answer, Ok(Reply::Built(_))),
        "the build of ticket 0"
    );
    let (held, mut desk) = match lock.try_enter(one) {
        Ok(entered) => entered,
        Err(_back) => panic!(rt; "ticket 1 is served"),
    };
    reader.learn(desk.tell());
    assert!(rt;
        version_read(&mut reader) == 1,
        "what was published is told"
    );
    let (one, answer) = shared.call_held(&rt, held, desk, Call::Build { now: 801 });
    let is_late = matches!(answer, Ok(Reply::Refused(Refusal::Late(840))));
    assert!(rt; is_late, "ticket 1 reads the build of ticket 0");
    has_one_each(&rt, close_pair(&rt, shared, zero, one));
}

#[test]
fn a_reader_reads_each_build_and_never_one_before_it(rt: HostRuntime) {
    let (shared, zero, one, mut reader) = watched(&rt, 4);
    assert!(rt; reader.newest().is_none(), "nothing is built");
    let build = Call::Build { now: 760 };
    let zero = answers(&rt, &shared, zero, &mut reader, build, Answer::Map(1));
    let build = Call::Build { now: 800 };
    let one = answers(&rt, &shared, one, &mut reader, build, Answer::Map(2));
    let build = Call::Build { now: 840 };
    let zero = answers(&rt, &shared, zero, &mut reader, build, Answer::Map(3));
    let (build, late) = (Call::Build { now: 881 }, Refusal::Late(920));
    let one = answers(
        &rt,
        &shared,
        one,
        &mut reader,
        build,
        Answer::Refused(late, 3),
    );
    let (history, _counts) = close_pair(&rt, shared, zero, one);
    assert!(rt;
        history.len() == 4 && version_read(&mut reader) == 3,
        "behind the close"
    );
}

#[test]
fn a_full_history_records_no_call_of_any_seat(rt: HostRuntime) {
    let (shared, zero, one, mut reader) = watched(&rt, 2);
    let build = Call::Build { now: 760 };
    let zero = answers(&rt, &shared, zero, &mut reader, build, Answer::Map(1));
    let unknown = Answer::Refused(Refusal::NoFlow, 1);
    let one = answers(&rt, &shared, one, &mut reader, Call::Status(17), unknown);
    let build = Call::Build { now: 800 };
    let zero = answers(&rt, &shared, zero, &mut reader, build, Answer::Full(1));
    has_one_each(&rt, close_pair(&rt, shared, zero, one));
}
