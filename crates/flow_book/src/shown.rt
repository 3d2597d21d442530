//! The flows that a MAP shows by pending grants: of those in a queue that still wait the first so many, by the minislot
//! since which they wait.

ghost use Rattle.std.specs.Prelude.{◌≡◌, ◌<◌, ◌≤◌, ◌++◌, ◌^◌, ℕ, List, Some, true, take, map, filter, length, nat_le};
ghost use Rattle.std.specs.Prelude.{IfOk, OnOk};
ghost use Rattle.std.specs.List.{AllZip};
ghost use Rattle.minislots.specs.declared.config.Config.{Config};
ghost use Rattle.flow_book.specs.declared.flow.Flow.{Flow};
ghost use Rattle.flow_book.specs.Entry.{live, IsBook};
ghost use Rattle.flow_book.specs.Queue.{still_waits, IsQueueIn};
ghost use Rattle.flow_book.specs.Shown.{is_shown, ack_of, number_of};
ghost use Rattle.sched_calls.specs.Sids.{put_in};
ghost use Rattle.flow_book.specs.Line.{itself, IsInOrder, sorted_into, sorted, sid_of, held_back};
ghost use Rattle.flow_book.specs.Overlay.{IsSameFlow};
ghost use Rattle.flow_book.specs.Mending.{AreServed};
ghost use Rattle.flow_book.specs.Numbers.{IsLineOf};
ghost use Rattle.flow_book.specs.Pending.{waiting_in, sid_at, number_at};

use crate::flow::SIDS;
use crate::flows::Flows;
use crate::line::Line;
use crate::waiting::Waiting;
use std::alloc::{AllocError, Global};

// The first flow that waits and is not shown.
#[derive(Clone, Copy)]
pub(crate) struct Hidden {
    // Its number in line.
    number: u128,
}

/// The flows that a MAP shows by pending grants, and its acknowledge time.
#[derive(Drop)]
pub struct Shown {
    /// The SIDs of the flows, in order.
    pub pending: Vec<u16>,
    /// The acknowledge time.
    pub ack: u64,
}

// The number by which flows that wait stand in line: by the minislot, then by SID.
pub(crate) fn number_of(since: u64, sid: u16) -> u128
    ensures { result ≡ number_of since sid }
{
    u128::from(since) * SIDS + u128::from(sid)
}

// The number by which one that waits stands in line. There is a flow at its place.
pub(crate) fn number_at(waiting: &Waiting, flows: &Flows) -> u128
    ensures { result ≡ number_at flows.now waiting.now }
{
    match flows.get(waiting.place as usize) {
        Some(flow) => number_of(flow.since_with(waiting.wants), flow.sid),
        None => 0,
    }
}

// So many numbers are kept, and none of them is greater than this one, so that it has no place among them.
fn is_behind(line: &[u128], most: usize, number: u128) -> bool
    requires { IsInOrder line.now }
    ensures { result ≡ true → take most (put_in itself number line.now) ≡ line.now }
{
    match line.last() {
        Some(last) => line.len() == most && *last <= number,
        None => false,
    }
}

// Puts a number in its place among the least so many.
fn keep_least(line: &mut Vec<u128>, most: usize, number: u128) -> Result<(), AllocError>
    requires { IsInOrder line.old.items }
    ensures { OnOk result (line.new.items ≡ take most (put_in itself number line.old.items)) }
{
    if is_behind(line, most, number) {
        return Ok(());
    }
    let place = line.partition_point(|other| *other <= number);
    line.insert(place, number)?;
    line.truncate(most);
    Ok(())
}

// Puts the numbers of those that still wait among the least so many.
fn put_in_line(
    line: &mut Vec<u128>,
    part: &[Waiting],
    flows: &Flows,
    most: usize,
) -> Result<(), AllocError>
    requires { IsInOrder line.old.items }
    ensures order { OnOk result (IsInOrder line.new.items) }
    ensures kept { OnOk result ((whole : List ℕ) → line.old.items ≡ take most whole → line.new.items
        ≡ take most (sorted_into whole (map (number_at flows.now) (filter still_waits part.now)))) }
{
    for waiting in part {
        if waiting.wants > 0 {
            keep_least(line, most, number_at(waiting, flows))?;
        }
    }
    Ok(())
}

// The numbers of the first so many that wait.
fn first_in_line(
    alloc: Global,
    queue: &[Waiting],
    served: &[Waiting],
    flows: &Flows,
    most: usize,
) -> Result<Vec<u128>, AllocError>
    ensures { IfOk result (λ line. line.items
        ≡ take most (sorted (map (number_at flows.now) (waiting_in queue.now served.now)))) }
{
    let mut line = Vec::with_capacity(alloc, most.saturating_add(1))?;
    put_in_line(&mut line, queue, flows, most)?;
    put_in_line(&mut line, served, flows, most)?;
    Ok(line)
}

// How many of these still wait: where they are more than so many, a number above it.
fn count_up_to(part: &[Waiting], most: usize) -> usize
    ensures few { result ≤ most → result ≡ length (filter still_waits part.now) }
    ensures many { most < result → most < length (filter still_waits part.now) }
    ensures within { result ≤ length part.now }
{
    let mut count = 0;
    for waiting in part {
        if count > most {
            return count;
        }
        if waiting.wants > 0 {
            count += 1;
        }
    }
    count
}

// No more wait than so many.
fn wait_few(queue: &[Waiting], served: &[Waiting], most: usize) -> bool
    ensures { result ≡ nat_le (length (waiting_in queue.now served.now)) most }
{
    if queue.len() + served.len() <= most {
        return true;
    }
    let count = count_up_to(queue, most);
    if count > most {
        return false;
    }
    count + count_up_to(served, most - count) <= most
}

// Puts the SIDs of those that still wait behind others.
fn push_sids(sids: &mut Vec<u16>, part: &[Waiting]) -> Result<(), AllocError>
    ensures { OnOk result (sids.new.items
        ≡ sids.old.items ++ map sid_at (filter still_waits part.now)) }
{
    for one in part {
        if one.wants > 0 {
            sids.push((one.turn % SIDS) as u16)?;
        }
    }
    Ok(())
}

// The SIDs of those that still wait, in order. They are no more than so many.
fn sids_waiting(
    alloc: Global,
    queue: &[Waiting],
    served: &[Waiting],
    most: usize,
) -> Result<Vec<u16>, AllocError>
    ensures { IfOk result (λ sids. sids.items ≡ sorted (map sid_at (waiting_in queue.now served.now))) }
{
    let mut sids = Vec::with_capacity(alloc, most.min(queue.len() + served.len()))?;
    push_sids(&mut sids, queue)?;
    push_sids(&mut sids, served)?;
    sids.sort_unstable();
    Ok(sids)
}

// The SIDs of those with these numbers in line, in order.
fn sids_of(alloc: Global, numbers: &[u128]) -> Result<Vec<u16>, AllocError>
    ensures { IfOk result (λ sids. sids.items ≡ sorted (map sid_of numbers.now)) }
{
    let mut sids = Vec::with_capacity(alloc, numbers.len())?;
    for number in numbers {
        sids.push((*number % SIDS) as u16)?;
    }
    sids.sort_unstable();
    Ok(sids)
}

// The least progress, held back by the first that is hidden.
pub(crate) fn held_back(hidden: Hidden, progress: u64) -> u64
    ensures { result ≡ held_back (Some hidden) progress }
{
    (hidden.number / SIDS).min(u128::from(progress)) as u64
}

// So many wait that their numbers are kept in line.
fn wait_many(queue: &[Waiting], served: &[Waiting], most: usize) -> bool {
    queue.len() + served.len() > most.saturating_mul(4)
}

// Makes a line that is that of the flows before a MAP that of those after it: it is mended where it is known, and where
// it is not and many wait it is filled.
fn keep_line(
    line: &mut Line,
    queue: &[Waiting],
    served: &[Waiting],
    changed: &[Waiting],
    flows: &Flows,
    most: usize,
)
    requires { (c : Config) × (items : List Flow) × AreServed c flows.now items changed.now }
    ensures { (c : Config) (items : List Flow) → IsQueueIn items queue.now served.now
        → AreServed c flows.now items changed.now → IsLineOf (map live flows.now) line.old
        → IsLineOf (map live items) line.new }
{
    if line.is_known() {
        line.mend(changed, flows);
    } else if wait_many(queue, served, most) {
        line.fill(queue, served, flows);
    }
}

// The first so many numbers of those that still wait, from the line where it is known.
fn least_of(
    alloc: Global,
    queue: &[Waiting],
    served: &[Waiting],
    flows: &Flows,
    line: &Line,
    most: usize,
) -> Result<Vec<u128>, AllocError>
    requires { line.now.is_known ≡ true
        → line.now.numbers ≡ sorted (map (number_at flows.now) (waiting_in queue.now served.now)) }
    ensures { IfOk result (λ first. first.items
        ≡ take most (sorted (map (number_at flows.now) (waiting_in queue.now served.now)))) }
{
    if line.is_known() {
        return line.first(alloc, most);
    }
    first_in_line(alloc, queue, served, flows, most)
}

// The first so many of those that still wait, all where there are no more, and the acknowledge time. The queue is in
// two parts: those that waited before a MAP, and those that it served. They are of the flows with its data grants, and
// no other has changed than the flows of `changed`. The line is that of the flows before the MAP, and that of those
// after it then.
pub(crate) fn show(
    alloc: Global,
    queue: &[Waiting],
    served: &[Waiting],
    changed: &[Waiting],
    flows: &Flows,
    line: &mut Line,
    most: usize,
    progress: u64,
) -> Result<Shown, AllocError>
    requires few { most < 2 ^ 32 }
    requires queue { (c : Config) × (items : List Flow) × IsBook c items × IsQueueIn items queue.now served.now
        × AllZip IsSameFlow (map live flows.now) (map live items) × AreServed c flows.now items changed.now
        × IsLineOf (map live flows.now) line.old }
    ensures pending { IfOk result (λ s. (c : Config) (items : List Flow) → IsBook c items
        → IsQueueIn items queue.now served.now → AllZip IsSameFlow (map live flows.now) (map live items)
        → s.pending.items ≡ map (λ f. f.sid) (filter (is_shown most (map live items)) (map live items))) }
    ensures ack { IfOk result (λ s. (c : Config) (items : List Flow) → IsBook c items
        → IsQueueIn items queue.now served.now → AllZip IsSameFlow (map live flows.now) (map live items)
        → s.ack ≡ ack_of most progress (map live items)) }
    ensures line { (c : Config) (items : List Flow) → IsQueueIn items queue.now served.now
        → AreServed c flows.now items changed.now → IsLineOf (map live flows.now) line.old
        → IsLineOf (map live items) line.new }
{
    if wait_few(queue, served, most) {
        line.forget();
        let pending = sids_waiting(alloc, queue, served, most)?;
        return Ok(Shown {
            pending,
            ack: progress,
        });
    }
    keep_line(line, queue, served, changed, flows, most);
    let first = least_of(alloc, queue, served, flows, line, most + 1)?;
    let pending = sids_of(alloc, &first[..most])?;
    let hidden = Hidden {
        number: first[most],
    };
    let ack = held_back(hidden, progress);
    Ok(Shown { pending, ack })
}
