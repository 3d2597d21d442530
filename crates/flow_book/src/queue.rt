//! The flows that wait for bytes, in the order in which they are served.

ghost use Rattle.std.specs.Prelude.{◌==◌, nat_lt, position, true, false, ◌+◌, ◌^◌, insert, set, get_or};
ghost use Rattle.std.specs.Prelude.{ℕ, ◌≡◌, ◌≢◌, ◌<◌, ◌≤◌, List, remove, slice_index_or, map, length, OnOk, OnErr, IfOk};
ghost use Rattle.std.specs.Prelude.{Option, Some};
ghost use Rattle.std.specs.List.{AllByRecursion, position_or_len};
ghost use Rattle.minislots.specs.declared.config.Config.{Config};
ghost use Rattle.flow_book.specs.declared.flow.Flow.{Flow};
ghost use Rattle.flow_book.specs.Flows.{granted, outstanding};
ghost use Rattle.flow_book.specs.Entry.{live, is_plain, IsBook};
ghost use Rattle.sched_calls.specs.Sids.{AscendBy, put_in};
ghost use Rattle.flow_book.specs.Queue.{IsQueue, IsQueueAmong, IsMoved, AreSameBut, moved_up, moved_down};
ghost use Rattle.flow_book.specs.declared.tiers.TheConstants.{NO_TIER as NONE};
ghost use Rattle.flow_book.specs.Queue.{HasPassed, StandsBehind, is_passed, still_waits};
ghost use Rattle.flow_book.specs.Tiers.{queue_limits};

use crate::bucket::Bucket;
use crate::flow::Flow;
use crate::flows::Flows;
use crate::queue_list::Queue;
use crate::tiers::NO_TIER;
use crate::waiting::Waiting;
use std::alloc::{AllocError, Global};
use std::mem;

// The place in the queue of the first of a later turn, or its end.
pub(crate) fn place_after(queue: &[Waiting], turn: u128) -> usize
    requires { AscendBy (λ w. w.turn) queue.now }
    ensures place { result ≡ position_or_len (λ w. nat_lt turn w.turn) queue.now }
    ensures within { result ≤ length queue.now }
{
    queue.partition_point(|waiting| waiting.turn <= turn)
}

// The place in the queue of the flow at this place among the flows.
fn index_of(queue: &Queue, place: usize) -> Option<usize>
    ensures { result ≡ position (λ w. w.place == place) queue.now }
{
    queue
        .all()
        .iter()
        .position(|waiting| waiting.place as usize == place)
}

// Puts one that waits into the queue, before the first of a later turn.
pub(crate) fn put_in_turn(queue: &mut Queue, waiting: Waiting) -> Result<(), AllocError>
    requires { AscendBy (λ w. w.turn) queue.old }
    ensures put { OnOk result (queue.new ≡ put_in (λ w. w.turn) waiting queue.old) }
    ensures same { OnErr result (queue.new ≡ queue.old) }
{
    let index = place_after(queue.all(), waiting.turn);
    queue.insert(index, waiting)
}

// The queue of all flows that wait.
pub(crate) fn queue_of(alloc: Global, flows: &Flows) -> Result<Queue, AllocError>
    requires { (c : Config) × IsBook c flows.now }
    ensures { IfOk result (λ queue. IsQueue flows.now queue) }
{
    let mut queue = Queue::of(Vec::with_capacity(alloc, flows.len())?);
    for place in 0..flows.len() {
        let waiting = waiting_of(flows.at(place), place);
        if waiting.wants > 0 {
            put_in_turn(&mut queue, waiting)?;
        }
    }
    Ok(queue)
}

// Moves the one at this place in the queue, of a turn no earlier than before, behind those of turns no later.
pub(crate) fn move_back(queue: &mut [Waiting], index: usize, waiting: Waiting)
    requires within { index < length queue.old }
    requires before { (k : ℕ) (d : Waiting)
        → k < index → (slice_index_or queue.old k d).turn ≤ waiting.turn }
    ensures moved { queue.new ≡ put_in (λ w. w.turn) waiting (remove queue.old index) }
    ensures len { length queue.new ≡ length queue.old }
{
    let mut at = index;
    while at + 1 < queue.len() && queue[at + 1].turn <= waiting.turn {
        queue[at] = queue[at + 1];
        at += 1;
    }
    queue[at] = waiting;
}

// One is of a turn no later than this one, or wants nothing.
fn is_passed(waiting: &Waiting, turn: u128) -> bool
    ensures { result ≡ is_passed turn waiting.now }
{
    waiting.turn <= turn || waiting.wants == 0
}

// Moves those behind this place that one of a later turn passes to the front by one, and answers where it comes to
// stand.
#[inline(never)]
fn pass(queue: &mut [Waiting], index: usize, turn: u128) -> usize
    requires within { index < length queue.old }
    requires before { (k : ℕ) (d : Waiting)
        → k < index → is_passed turn (slice_index_or queue.old k d) ≡ true }
    ensures passed { HasPassed index queue.old queue.new turn result }
    ensures next { (d : Waiting) → result + 1 < length queue.new
        → is_passed turn (slice_index_or queue.new (result + 1) d) ≡ false }
{
    let mut to = index;
    while to + 1 < queue.len() && is_passed(&queue[to + 1], turn) {
        queue[to] = queue[to + 1];
        to += 1;
    }
    to
}

// Moves the one at this place in the queue, which still waits and passes all before it, behind those that it passes.
#[inline(always)]
fn move_behind(queue: &mut [Waiting], index: usize, waiting: Waiting)
    requires within { index < length queue.old }
    requires waits { still_waits waiting ≡ true }
    requires before { (k : ℕ) (d : Waiting)
        → k < index → is_passed waiting.turn (slice_index_or queue.old k d) ≡ true }
    ensures { StandsBehind index waiting queue.old queue.new }
{
    let to = pass(queue, index, waiting.turn);
    queue[to] = waiting;
}

// Puts the one at this place in the queue, which was served and passes all before it, behind those that it passes:
// where it wants nothing any more it stays where it is.
#[inline(always)]
pub(crate) fn put_on(queue: &mut [Waiting], index: usize, waiting: Waiting)
    requires within { index < length queue.old }
    requires before { (k : ℕ) (d : Waiting)
        → k < index → is_passed waiting.turn (slice_index_or queue.old k d) ≡ true }
    ensures { StandsBehind index waiting queue.old queue.new }
{
    if waiting.wants == 0 {
        queue[index] = waiting;
    } else {
        move_behind(queue, index, waiting);
    }
}

// Moves the one of this place to its turn in the queue: most often it comes later than before, and moves back.
fn move_to_turn(queue: &mut Queue, waiting: Waiting) -> Result<(), AllocError>
    requires { (items : List Flow) × IsQueue items queue.old }
    ensures { OnOk result ((items : List Flow) → IsQueue items queue.old
        → IsMoved items waiting queue.new) }
{
    let place = waiting.place as usize;
    let Some(index) = index_of(queue, place) else {
        put_in_turn(queue, waiting)?;
        return Ok(());
    };
    if queue.all()[index].turn <= waiting.turn {
        queue.move_back(index, waiting);
        return Ok(());
    }
    take_out(queue, place);
    put_in_turn(queue, waiting)?;
    Ok(())
}

// Moves the flow at this place of a book, which has changed, to its turn in the queue, or takes it out.
fn put_again(queue: &mut Queue, flows: &Flows, place: usize) -> Result<(), AllocError>
    requires book { (c : Config) × IsBook c flows.now }
    requires within { place < length flows.now }
    requires queue { (before : List Flow)
        × AreSameBut place before flows.now × IsQueue before queue.old }
    ensures { OnOk result (IsQueue flows.now queue.new) }
{
    let waiting = waiting_of(flows.at(place), place);
    if waiting.wants > 0 {
        move_to_turn(queue, waiting)?;
        return Ok(());
    }
    take_out(queue, place);
    Ok(())
}

// What the queue has of the flow at this place: one that takes no requests is never served.
pub(crate) fn waiting_of(flow: &Flow, place: usize) -> Waiting
    requires sum { flow.now.granted ≡ granted (live flow.now) }
    requires within { granted (live flow.now) ≤ flow.now.asked }
    requires place { place < 2 ^ 32 }
    ensures turn { result.turn ≡ flow.now.turn }
    ensures wants { result.wants ≡ outstanding (live flow.now) }
    ensures place { result.place ≡ place }
    ensures sustained { result.sustained ≡ (queue_limits flow.now).sustained }
    ensures tier { (result.tier == NONE) ≡ is_plain flow.now }
{
    let limits = &flow.limits;
    let is_plain = limits.peak.is_unlimited() && limits.reserved.is_unlimited();
    let sustained = if flow.spec.takes_requests() {
        limits.sustained.again()
    } else {
        Bucket::closed()
    };
    Waiting {
        turn: flow.turn,
        wants: flow.outstanding(),
        place: place as u32,
        tier: if is_plain { NO_TIER } else { 0 },
        sustained,
    }
}

// The one at this place in the queue waits for nothing any more.
pub(crate) fn make_idle(queue: &mut [Waiting], index: usize)
    requires { index < length queue.old }
    ensures { (d : Waiting) → queue.new ≡ set queue.old index (record (get_or queue.old index d) { wants = 0 }) }
{
    queue[index].wants = 0;
}

// Takes the flow at this place out of the queue, where it is in it.
fn take_out(queue: &mut Queue, place: usize)
    ensures { (items : List Flow) → IsQueue items queue.old
        → IsQueueAmong items (λ other. other ≢ place) queue.new }
{
    if let Some(index) = index_of(queue, place) {
        queue.remove(index);
    }
}

// Moves the places up for a flow that is put in at this place: each from there on is one more.
pub(crate) fn move_up(queue: &mut [Waiting], place: usize)
    requires { AllByRecursion (λ w. w.place + 1 < 2 ^ 32) queue.old }
    ensures { queue.new ≡ map (moved_up place) queue.old }
{
    for waiting in queue.iter_mut() {
        if place <= waiting.place as usize {
            waiting.place += 1;
        }
    }
}

// Makes way in a queue that is known for a flow that is put in at this place and waits for nothing.
pub(crate) fn make_way(queue: &mut Queue, is_queued: bool, place: usize)
    requires { is_queued ≡ true → (items : List Flow)
        × IsQueue items queue.old × (length items + 1 < 2 ^ 32) }
    ensures { (items : List Flow) (f : Flow) → is_queued ≡ true → IsQueue items queue.old
        → place ≤ length items → outstanding (live f) ≡ 0
        → IsQueue (insert items place f) queue.new }
{
    if is_queued {
        queue.move_up(place);
    }
}

// Moves the places down where the flow at this place is taken out: each behind it is one less.
pub(crate) fn move_down(queue: &mut [Waiting], place: usize)
    ensures { queue.new ≡ map (moved_down place) queue.old }
{
    for waiting in queue.iter_mut() {
        if place < waiting.place as usize {
            waiting.place -= 1;
        }
    }
}

// Takes the flow at this place, which leaves the book, out of the queue.
pub(crate) fn leave(queue: &mut Queue, place: usize)
    ensures { (items : List Flow) → place < length items → IsQueue items queue.old
        → IsQueue (remove items place) queue.new }
{
    take_out(queue, place);
    queue.move_down(place);
}

// Makes room in the queue for one more than so many flows, and as much beside it: then those that go behind it seldom
// need those before them to move.
pub(crate) fn make_room(queue: &mut Queue, flows: usize) -> Result<(), AllocError>
    ensures { queue.new ≡ queue.old }
{
    queue.reserve(flows.saturating_add(1).saturating_mul(2))
}

// A copy of the queue.
pub(crate) fn copy_of(alloc: Global, queue: &Queue) -> Result<Queue, AllocError>
    ensures { IfOk result (λ copy. copy ≡ queue.now) }
{
    let mut copy = Vec::with_capacity(alloc, queue.len())?;
    copy.extend_from_slice(queue.all())?;
    Ok(Queue::of(copy))
}

// Takes a queue that is known from its book, which has none then, or makes it.
pub(crate) fn take_or_make(
    queue: &mut Queue,
    is_queued: &mut bool,
    flows: &Flows,
) -> Result<Queue, AllocError>
    requires book { (c : Config) × IsBook c flows.now }
    requires queue { is_queued.old ≡ true → IsQueue flows.now queue.old }
    ensures made { IfOk result (λ made. IsQueue flows.now made) }
    ensures left { is_queued.new ≡ true → IsQueue flows.now queue.new }
{
    let alloc = flows.allocator();
    if *is_queued {
        *is_queued = false;
        return Ok(mem::replace(queue, Queue::new(alloc)));
    }
    queue_of(alloc, flows)
}

// Keeps a queue that is known where the flow at this place of a book has changed, and answers whether it still is.
pub(crate) fn follow(queue: &mut Queue, is_queued: bool, flows: &Flows, place: usize) -> bool
    requires book { (c : Config) × IsBook c flows.now }
    requires within { place < length flows.now }
    requires queue { is_queued ≡ true → (before : List Flow)
        × AreSameBut place before flows.now × IsQueue before queue.old }
    ensures { result ≡ true → IsQueue flows.now queue.new }
{
    is_queued && put_again(queue, flows, place).is_ok()
}
