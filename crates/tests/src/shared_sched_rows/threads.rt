//! Readers in threads of their own, while builders build at the same time.

ghost use Rattle.std.specs.Prelude.{◌≡◌};

use super::{close_pair, is_map, opened};
use flow_book::FlowSpec;
use map_snapshot::{Printed, Reader};
use sched_calls::Amount;
use sched_history::{Call, Entry, Refusal, Reply, Unrecorded};
use shared_sched::{Desk, Shared};
use std::alloc::{AllocError, AllocGlobal, Global};
use std::process::Abort;
use std::sync::Wait;
use std::sync::atomic::AtomicBool;
use std::sync::atomic::Ordering::SeqCst;
use std::thread::{Threads, join, map_vec};
use ticket_lock::Seat;

// How many calls each of two builders makes, half of them builds, and how often each of three readers reads at least.
const CALLS: usize = 3000;

const READS: u64 = 3000;

const DATA: FlowSpec = FlowSpec::BestEffort {
    priority: 3,
    rate: 0,
    burst: 0,
    peak: 0,
    reserved: 0,
    reserved_burst: 0,
};

// The call of a builder with this number: every other one is a build, and between them are 50 flows that ask.
fn call_at(number: usize, now: u64) -> Call {
    let sid = (number / 4 % 50) as u16 + 1;
    match number % 4 {
        0 => Call::Admit(sid, DATA),
        2 => Call::Ask {
            receiver: 0,
            sid,
            amount: Amount::Bytes(700),
            heard: 801,
        },
        _ => Call::Build { now },
    }
}

// The clock of a builder after this answer: that of the frame that was built, or of one that is not too far ahead.
fn clock_after(now: u64, answer: Result<Reply, Unrecorded>) -> u64 {
    match answer {
        Ok(Reply::Built(map)) => map.start,
        Ok(Reply::Refused(Refusal::TooEarly(next))) => next.saturating_sub(40),
        _ => now,
    }
}

// Makes all calls of one builder.
fn build_all<R: Wait>(rt: &R, shared: &Shared, seat: Seat<Desk>) -> Seat<Desk>
    requires own { seat.lock ≡ shared.now.lock }
    ensures own { result.lock ≡ shared.now.lock }
{
    let mut seat = seat;
    let mut now = 760;
    for number in 0..CALLS {
        let (back, answer) = shared.call(rt, seat, call_at(number, now));
        seat = back;
        now = clock_after(now, answer);
    }
    seat
}

// Two builders build at the same time, and then say that they have ended.
fn build_beside<R: Threads + Wait + Sync>(
    rt: &R,
    shared: &Shared,
    seats: (Seat<Desk>, Seat<Desk>),
    ended: &AtomicBool,
) -> (Seat<Desk>, Seat<Desk>)
    requires zero { seats.0.lock ≡ shared.now.lock }
    requires one { seats.1.lock ≡ shared.now.lock }
    ensures zero { result.0.lock ≡ shared.now.lock }
    ensures one { result.1.lock ≡ shared.now.lock }
{
    let (zero, one) = seats;
    let back = join(
        rt,
        move || -> Seat<Desk>
            requires own { zero.lock ≡ shared.now.lock }
            ensures own { result.lock ≡ shared.entry.now.lock }
        { build_all(rt, shared, zero) },
        move || -> Seat<Desk>
            requires own { one.lock ≡ shared.now.lock }
            ensures own { result.lock ≡ shared.entry.now.lock }
        { build_all(rt, shared, one) },
    );
    ended.store(true, SeqCst);
    back
}

// Reads until the builders have ended, and so often at least. It gives the maps read, each once, or none where a
// version fell below the one before.
fn read_all<R: Wait>(
    rt: &R,
    alloc: Global,
    reader: Reader,
    ended: &AtomicBool,
) -> Option<Vec<Printed>> {
    let mut reader = reader;
    let mut maps: Vec<Printed> = Vec::new(alloc);
    let (mut reads, mut before): (u64, u64) = (0, 0);
    for _ in rt.forever() {
        let is_last = ended.load(SeqCst) && reads >= READS;
        if let Some(read) = reader.newest() {
            let version = read.version;
            if version < before || version > before && maps.push(read).is_err() {
                return None;
            }
            before = version;
        }
        if is_last {
            return Some(maps);
        }
        reads = reads.saturating_add(1);
    }
    unreachable!()
}

// The maps that each of some readers reads, all at the same time, or none.
type ReadMaps = Result<Vec<Option<Vec<Printed>>>, AllocError>;

// Two builders build beside some readers.
fn build_and_read<R: Threads + Wait + Sync>(
    rt: &R,
    alloc: Global,
    shared: &Shared,
    seats: (Seat<Desk>, Seat<Desk>),
    readers: Vec<Reader>,
) -> ((Seat<Desk>, Seat<Desk>), ReadMaps)
    requires zero { seats.0.lock ≡ shared.now.lock }
    requires one { seats.1.lock ≡ shared.now.lock }
    ensures zero { result.0.0.lock ≡ shared.now.lock }
    ensures one { result.0.1.lock ≡ shared.now.lock }
{
    let ended = AtomicBool::new(false);
    let ended = &ended;
    let read = |reader: Reader| read_all(rt, alloc, reader, ended);
    join(
        rt,
        move || -> (Seat<Desk>, Seat<Desk>)
            requires zero { seats.0.lock ≡ shared.now.lock }
            requires one { seats.1.lock ≡ shared.now.lock }
            ensures zero { result.0.lock ≡ shared.entry.now.lock }
            ensures one { result.1.lock ≡ shared.entry.now.lock }
        { build_beside(rt, shared, seats, ended) },
        || map_vec(rt, readers, &read),
    )
}

// The MAPs of a history, in order, as the places of their entries.
fn places_of(alloc: Global, history: &[Entry]) -> Option<Vec<usize>> {
    let mut places = Vec::new(alloc);
    for (i, entry) in history.iter().enumerate() {
        if let Reply::Built(_) = entry.reply {
            places.push(i).ok()?;
        }
    }
    Some(places)
}

// Whether what was read is the MAP of its version in the history.
fn is_its_map(alloc: Global, read: &Printed, places: &[usize], history: &[Entry]) -> bool {
    let Some(place) = places.get((read.version as usize).wrapping_sub(1)) else {
        return false;
    };
    match history.get(*place) {
        Some(
            Entry {
                reply: Reply::Built(map),
                ..
            },
        ) => is_map(alloc, read, map),
        _ => false,
    }
}

#[test]
fn each_version_read_is_the_map_of_that_version_in_the_closed_history(rt: HostRuntime) {
    let (shared, zero, one, readers) = opened(&rt, 2 * CALLS as u32, 3);
    let ((zero, one), maps) = build_and_read(&rt, rt.alloc(), &shared, (zero, one), readers);
    let (history, _counts) = close_pair(&rt, shared, zero, one);
    let places = places_of(rt.alloc(), &history).expect(&rt, "memory");
    assert!(rt; places.len() > CALLS / 2, "{} MAPs", places.len());
    for read in maps.expect(&rt, "memory") {
        let read = read.expect(&rt, "no version falls");
        assert!(rt; read.last().map(|map| map.version) == Some(places.len() as u64));
        let are_its = read
            .iter()
            .all(|map| is_its_map(rt.alloc(), map, &places, &history));
        assert!(rt; are_its, "the MAP of its version");
    }
}
