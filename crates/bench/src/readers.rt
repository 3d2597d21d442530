//! Reads of the newest map of a press, while maps are published.
ghost use Rattle.std.specs.Prelude.{◌≡◌, ◌+◌, ◌≤◌, true, [], length};
ghost use Rattle.map_snapshot.specs.declared.printed.TheConstants.{MAX_BYTES};

use crate::run::{Took, figure, now, print_line};
use map_snapshot::{MAX_BYTES, Press, Printed, Reader, open_press};
use std::alloc::Global;
use std::sync::Wait;
use std::sync::atomic::Ordering::SeqCst;
use std::sync::atomic::{AtomicBool, AtomicU64};
use std::thread;
use std::thread::Threads;
use std::time::{Clock, CpuClock, Duration};

// How often each reader reads in one run.
const READS: usize = 300_000;

// How often a map is published while readers read.
#[derive(Clone, Copy)]
enum Pace {
    // Before they begin, and then no more.
    Once,
    // A thousand times a second.
    Thousand,
    // Without a pause.
    Always,
}

impl Pace {
    // Waits until the next map is to be published. It says whether there is one.
    fn rest<R: Clock>(self, rt: &R) -> bool {
        match self {
            Pace::Once => false,
            Pace::Thousand => {
                thread::sleep(rt, Duration::from_millis(1));
                true
            }
            Pace::Always => true,
        }
    }
}

// A map of the greatest length, of this version.
fn printed(version: u64) -> Printed
    ensures version { result.version ≡ version }
    ensures fits { result.len ≤ MAX_BYTES }
{
    Printed {
        version,
        len: MAX_BYTES,
        bytes: [(version % 251) as u8; MAX_BYTES],
    }
}

// The bytes of a map, added up.
fn sum_of(read: &Printed) -> u64 {
    let mut sum: u64 = 0;
    for byte in &read.bytes {
        sum = sum.wrapping_add(u64::from(*byte));
    }
    sum
}

// Appends and publishes the map of this version. It says whether there was memory for it.
fn publish<R: Wait>(rt: &R, press: &mut Press, version: u64) -> bool
    requires settled { press.old.waiting ≡ [] }
    requires next { version ≡ length press.old.list + 1 }
    ensures settled { press.new.waiting ≡ [] }
    ensures count { result ≡ true → length press.new.list ≡ version }
{
    if press.append(printed(version)).is_err() {
        return false;
    }
    press.publish(rt);
    true
}

// Publishes all maps but the first, until all readers have read.
fn publish_all<R: Wait + Clock>(rt: &R, press: &mut Press, pace: Pace, ended: &AtomicBool)
    requires first { (length press.old.list ≡ 1) × (press.old.waiting ≡ []) }
{
    for before in 1..u64::MAX {
        if !pace.rest(rt) || ended.load(SeqCst) || !publish(rt, press, before + 1) {
            return;
        }
    }
}

// Reads, each time to the same place, and gives the sum of the bytes that were read last.
fn read_all(reader: &mut Reader) -> u64 {
    let mut last = printed(0);
    for _ in 0..READS {
        if let Some(read) = reader.newest() {
            last = read;
        }
    }
    sum_of(&last)
}

// What it takes until all readers have read, each in a thread of its own. The writer is told then.
fn time_reads<R: Threads + Clock + CpuClock + Sync>(
    rt: &R,
    readers: &mut [Reader],
    ended: &AtomicBool,
) -> Option<Took> {
    let sum = AtomicU64::new(0);
    let total = &sum;
    let start = now(rt);
    thread::for_each_mut(
        rt,
        readers,
        4,
        &|_, reader: &mut Reader| {
            total.fetch_add(read_all(reader), SeqCst);
        },
    );
    let end = now(rt);
    ended.store(true, SeqCst);
    figure(start, end, sum.load(SeqCst) > 0)
}

// What the reads of so many readers take, while maps are published at this pace.
fn time_readers<R: Threads + Wait + Clock + CpuClock + Sync>(
    rt: &R,
    alloc: Global,
    count: usize,
    pace: Pace,
) -> Option<Took> {
    let Ok((mut press, mut readers)) = open_press(rt, alloc, count) else {
        return None;
    };
    if !publish(rt, &mut press, 1) {
        press.end(rt);
        return None;
    }
    let ended = AtomicBool::new(false);
    let (writer, row, ended) = (&mut press, readers.as_mut_slice(), &ended);
    let (_, took) = thread::join(
        rt,
        move || -> ()
            requires first { (length writer.now.list ≡ 1) × (writer.now.waiting ≡ []) }
        { publish_all(rt, writer, pace, ended) },
        move || time_reads(rt, row, ended),
    );
    press.end(rt);
    took
}

/// Prints what each read of the newest map of a kilobyte takes, by the readers that read at once, and by how often a
/// map is published meanwhile.
pub fn print<R: Threads + Wait + Clock + CpuClock + Sync + Print>(
    rt: &R,
    alloc: Global,
) -> Option<()> {
    for (name, pace) in [
        ("once", Pace::Once),
        ("1000", Pace::Thousand),
        ("always", Pace::Always),
    ] {
        print_line(rt, 1, name, time_readers(rt, alloc, 1, pace)?, READS)?;
        print_line(rt, 3, name, time_readers(rt, alloc, 3, pace)?, READS)?;
    }
    Some(())
}
