//! The flows that wait while a MAP is planned. Where they are many they stand in two parts: those that it served, and
//! the others.

ghost use Rattle.std.specs.Prelude.{◌≡◌, ◌<◌, ◌≤◌, ◌+◌, ℕ, List, [], map, filter, length, true, false, IfSome, MatchOption};
ghost use Rattle.std.specs.Prelude.{None, Some, ◌^◌};
ghost use Rattle.std.specs.Prelude.{option_map, slice_get, vec_capacity};
ghost use Rattle.minislots.specs.Config.{IsLawful};
ghost use Rattle.flow_book.specs.declared.flow.Flow.{Flow};
ghost use Rattle.flow_book.specs.declared.waiting.Waiting.{Waiting};
ghost use Rattle.flow_book.specs.Choice.{NoneEligible};
ghost use Rattle.flow_book.specs.Entry.{live, IsRoom};
ghost use Rattle.flow_book.specs.Limits.{HasBegunBy};
ghost use Rattle.flow_book.specs.Tiers.{limits_in};
ghost use Rattle.sched_calls.specs.Sids.{AscendBy, put_in};
ghost use Rattle.flow_book.specs.Queue.{all_of, IsOrderIn, IsQueueIn, IsShortQueue, HasRoom, NoneWaitsBefore, still_waits};
ghost use Rattle.flow_book.specs.declared.parts.Standing.TheVariants.{Queued};
ghost use Rattle.flow_book.specs.Parts.{one_at, sooner_of, is_sooner, HasStartedIn, IsAheadOf, IsNextIn, IsPutIn, IsPutBack, IsGranted, IsServedFirst};

use crate::flow::{Room, Served};
use crate::queue::{move_back, place_after, put_on};
use crate::queue_list::Queue;
use crate::soonest::{Able, first_able, soonest, soonest_of};
use crate::tiers::Tier;
use crate::waiting::Waiting;
use minislots::Checked;

// Where one stands that waits: in the queue, or among those that the MAP served.
#[derive(Clone, Copy)]
pub(crate) enum Standing {
    Queued(usize),
    Served(usize),
}

// The place among those served behind which none comes before this one of the queue: the end where there is none.
fn ahead_of(queued: Option<Able>, served: &[Waiting]) -> usize
    requires ascending { AscendBy (λ w. w.turn) served.now }
    ensures within { result ≤ length served.now }
    ensures ahead { IsAheadOf served.now result queued }
{
    match queued {
        Some(able) => place_after(served, able.turn),
        None => served.len(),
    }
}

// One stands there in the queue.
fn in_queue(queued: Option<Able>) -> Option<Standing>
    ensures { result ≡ option_map (λ able. Queued able.index) queued }
{
    match queued {
        Some(able) => Some(Standing::Queued(able.index)),
        None => None,
    }
}

// One has a turn before this one.
fn is_before(able: Option<Able>, turn: u128) -> bool
    ensures { result ≡ is_sooner turn able }
{
    match able {
        Some(able) => able.turn < turn,
        None => false,
    }
}

// Where the one stands that comes first of one of the queue and one of those served.
fn sooner_of(queued: Option<Able>, served: Option<Able>) -> Option<Standing>
    ensures { result ≡ sooner_of queued served }
{
    let Some(ahead) = served else {
        return in_queue(queued);
    };
    if is_before(queued, ahead.turn) {
        return in_queue(queued);
    }
    Some(Standing::Served(ahead.index))
}

// Where the flow stands that is served first at this minislot, of those that may be served. None of the queue before
// the first place wants anything.
fn first_of(
    queue: &[Waiting],
    first: usize,
    served: &[Waiting],
    tiers: &[Tier],
    config: &Checked,
    start: u64,
    room: Room,
) -> Option<Standing>
    requires room { IsRoom config.now room }
    requires passed { NoneWaitsBefore first queue.now }
    requires started { (items : List Flow) × HasStartedIn config.now items tiers.now queue.now served.now start }
    ensures next { (items : List Flow) → HasStartedIn config.now items tiers.now queue.now served.now start
        → MatchOption result (NoneEligible config.now (map live items) start room.slots)
        (IsNextIn config.now items queue.now served.now start room.slots) }
    ensures lawful { IsLawful config.now }
{
    let queued = soonest(queue, first, tiers, config, start, room);
    if served.is_empty() {
        return in_queue(queued);
    }
    let ahead = ahead_of(queued, served);
    let passed = soonest(&served[..ahead], 0, tiers, config, start, room);
    sooner_of(queued, passed)
}

// The one that stands there.
fn one_at(queue: &[Waiting], served: &[Waiting], standing: Standing) -> Waiting
    requires { (w : Waiting) × (one_at standing queue.now served.now ≡ Some w) }
    ensures { one_at standing queue.now served.now ≡ Some result }
{
    match standing {
        Standing::Queued(index) => queue[index],
        Standing::Served(index) => served[index],
    }
}

// Puts one in its turn among those served, where there is room for it.
fn put_reserved(served: &mut Vec<Waiting>, waiting: Waiting)
    requires room { length served.old.items < vec_capacity served.old }
    requires ascending { AscendBy (λ w. w.turn) served.old.items }
    ensures put { served.new.items ≡ put_in (λ w. w.turn) waiting served.old.items }
    ensures capacity { vec_capacity served.old ≤ vec_capacity served.new }
{
    let index = place_after(served, waiting.turn);
    let _ = served.insert(index, waiting);
}

// Puts the one at this place in the queue, which is served and whose turn is no earlier than before, among those
// served: in the queue it wants nothing any more.
fn put_queued(queue: &mut Queue, served: &mut Vec<Waiting>, index: usize, waiting: Waiting)
    requires order { (items : List Flow) × IsQueueIn items queue.old served.old.items }
    requires here { (w : Waiting) × (slice_get queue.old index ≡ Some w) × (still_waits w ≡ true)
        × (w.turn ≤ waiting.turn) }
    requires room { HasRoom true queue.old served.old.items (vec_capacity served.old) }
    ensures put { (items : List Flow) (w : Waiting)
        → IsQueueIn items queue.old served.old.items → slice_get queue.old index ≡ Some w
        → still_waits w ≡ true → w.place ≡ waiting.place
        → IsPutIn items waiting queue.old served.old.items queue.new served.new.items }
    ensures passed { (first : ℕ) → NoneWaitsBefore first queue.old → NoneWaitsBefore first queue.new }
    ensures room { HasRoom true queue.new served.new.items (vec_capacity served.new) }
{
    put_reserved(served, waiting);
    queue.make_idle(index);
}

// Puts the one that stands there, which is served and whose turn is no earlier than before, among those served.
fn put_served(queue: &mut Queue, served: &mut Vec<Waiting>, standing: Standing, waiting: Waiting)
    requires order { (items : List Flow) × IsQueueIn items queue.old served.old.items }
    requires here { (w : Waiting) × (one_at standing queue.old served.old.items ≡ Some w)
        × (still_waits w ≡ true) × (w.turn ≤ waiting.turn) }
    requires room { HasRoom true queue.old served.old.items (vec_capacity served.old) }
    ensures put { (items : List Flow) (w : Waiting)
        → IsQueueIn items queue.old served.old.items
        → one_at standing queue.old served.old.items ≡ Some w → still_waits w ≡ true → w.place ≡ waiting.place
        → IsPutIn items waiting queue.old served.old.items queue.new served.new.items }
    ensures passed { (first : ℕ) → NoneWaitsBefore first queue.old → NoneWaitsBefore first queue.new }
    ensures room { HasRoom true queue.new served.new.items (vec_capacity served.new) }
{
    match standing {
        Standing::Queued(index) => put_queued(queue, served, index, waiting),
        Standing::Served(index) => move_back(served, index, waiting),
    }
}

// The first place of the queue from this one on where one waits, or its end.
fn first_waiting(queue: &[Waiting], first: usize) -> usize
    requires { NoneWaitsBefore first queue.now }
    ensures { NoneWaitsBefore result queue.now }
{
    let mut at = first;
    while at < queue.len() && queue[at].wants == 0 {
        at += 1;
    }
    at
}

// Grants one that waits, at this minislot, the most bytes that it may have of so many, and answers to whom they went.
#[inline(always)]
fn serve_one(
    waiting: &mut Waiting,
    tiers: &mut [Tier],
    quantum: u32,
    start: u64,
    most: u64,
) -> Served
    requires begun { HasBegunBy start (limits_in tiers.old waiting.old) }
    requires most { most < 2 ^ 32 }
    ensures { IsGranted quantum tiers.old tiers.new waiting.old waiting.new start most result.sid result.bytes }
{
    let bytes = waiting.serve(tiers, quantum, start, most);
    Served {
        sid: waiting.sid(),
        bytes,
    }
}

// Puts the one at this place in a short queue, which is served and whose turn is no earlier than before, back into it.
fn put_short(queue: &mut [Waiting], index: usize, waiting: Waiting)
    requires order { (items : List Flow) × IsShortQueue items queue.old }
    requires here { (w : Waiting) × (slice_get queue.old index ≡ Some w) × (still_waits w ≡ true)
        × (w.turn ≤ waiting.turn) }
    ensures { (items : List Flow) (w : Waiting) → IsShortQueue items queue.old
        → slice_get queue.old index ≡ Some w → still_waits w ≡ true → w.place ≡ waiting.place
        → IsPutBack items waiting queue.old queue.new }
{
    put_on(queue, index, waiting);
}

// Serves the first that may be served where few wait, with these tiers.
#[inline(always)]
fn serve_by(
    queue: &mut [Waiting],
    tiers: &mut [Tier],
    config: &Checked,
    start: u64,
    room: Room,
) -> Option<Served>
    requires room { IsRoom config.now room }
    requires started { (items : List Flow) × IsShortQueue items queue.old
        × HasStartedIn config.now items tiers.old queue.old [] start }
    ensures next { (items : List Flow) → IsShortQueue items queue.old
        → HasStartedIn config.now items tiers.old queue.old [] start
        → MatchOption result (NoneEligible config.now (map live items) start room.slots)
        (λ s. IsServedFirst config.now false items tiers.old tiers.new queue.old [] queue.new []
        start room.slots room.bytes s.sid s.bytes) }
    ensures none { result ≡ None → (queue.new ≡ queue.old) × (tiers.new ≡ tiers.old) }
    ensures lawful { IsLawful config.now }
{
    let first = first_able(queue, 0, tiers, config, start, room)?;
    let index = soonest_of(queue, first, tiers, config, start, room);
    let mut waiting = queue[index];
    let granted = serve_one(&mut waiting, tiers, config.quantum(), start, room.bytes);
    put_short(queue, index, waiting);
    Some(granted)
}

// Serves the first that may be served where few wait. Most often none has a tier: then none is asked for one.
fn serve_short(
    queue: &mut [Waiting],
    tiers: &mut [Tier],
    config: &Checked,
    start: u64,
    room: Room,
) -> Option<Served>
    requires room { IsRoom config.now room }
    requires started { (items : List Flow) × IsShortQueue items queue.old
        × HasStartedIn config.now items tiers.old queue.old [] start }
    ensures next { (items : List Flow) → IsShortQueue items queue.old
        → HasStartedIn config.now items tiers.old queue.old [] start
        → MatchOption result (NoneEligible config.now (map live items) start room.slots)
        (λ s. IsServedFirst config.now false items tiers.old tiers.new queue.old [] queue.new []
        start room.slots room.bytes s.sid s.bytes) }
    ensures none { result ≡ None → (queue.new ≡ queue.old) × (tiers.new ≡ tiers.old) }
    ensures lawful { IsLawful config.now }
{
    if tiers.is_empty() {
        return serve_by(queue, &mut [], config, start, room);
    }
    serve_by(queue, tiers, config, start, room)
}

// Serves the first that may be served where many wait. None of the queue before the first place wants anything.
#[inline(never)]
fn serve_long(
    queue: &mut Queue,
    first: &mut usize,
    served: &mut Vec<Waiting>,
    tiers: &mut [Tier],
    config: &Checked,
    start: u64,
    room: Room,
) -> Option<Served>
    requires room { IsRoom config.now room }
    requires passed { NoneWaitsBefore first.old queue.old }
    requires reserved { HasRoom true queue.old served.old.items (vec_capacity served.old) }
    requires started { (items : List Flow)
        × HasStartedIn config.now items tiers.old queue.old served.old.items start }
    ensures next { (items : List Flow) → HasStartedIn config.now items tiers.old queue.old served.old.items start
        → MatchOption result (NoneEligible config.now (map live items) start room.slots)
        (λ s. IsServedFirst config.now true items tiers.old tiers.new queue.old served.old.items
        queue.new served.new.items start room.slots room.bytes s.sid s.bytes) }
    ensures none { result ≡ None
        → (queue.new ≡ queue.old) × (served.new ≡ served.old) × (tiers.new ≡ tiers.old) }
    ensures passed { NoneWaitsBefore first.new queue.new }
    ensures reserved { HasRoom true queue.new served.new.items (vec_capacity served.new) }
    ensures lawful { IsLawful config.now }
{
    let standing = first_of(queue.all(), *first, served, tiers, config, start, room)?;
    let mut waiting = one_at(queue.all(), served, standing);
    let granted = serve_one(&mut waiting, tiers, config.quantum(), start, room.bytes);
    put_served(queue, served, standing, waiting);
    *first = first_waiting(queue.all(), *first);
    Some(granted)
}

// Serves the first that may be served, and puts it where it stands from now on. Where many wait none of the queue
// before the first place wants anything.
pub(crate) fn serve_first(
    few: &mut Vec<Waiting>,
    many: &mut Queue,
    first: &mut usize,
    served: &mut Vec<Waiting>,
    tiers: &mut [Tier],
    is_long: bool,
    config: &Checked,
    start: u64,
    room: Room,
) -> Option<Served>
    requires room { IsRoom config.now room }
    requires passed { is_long ≡ true
        → NoneWaitsBefore first.old (all_of is_long few.old.items many.old) }
    requires reserved { HasRoom is_long (all_of is_long few.old.items many.old) served.old.items
        (vec_capacity served.old) }
    requires started { (items : List Flow)
        × IsOrderIn is_long items (all_of is_long few.old.items many.old) served.old.items
        × HasStartedIn config.now items tiers.old (all_of is_long few.old.items many.old) served.old.items start }
    ensures next { (items : List Flow)
        → IsOrderIn is_long items (all_of is_long few.old.items many.old) served.old.items
        → HasStartedIn config.now items tiers.old (all_of is_long few.old.items many.old) served.old.items start
        → MatchOption result (NoneEligible config.now (map live items) start room.slots)
        (λ s. IsServedFirst config.now is_long items tiers.old tiers.new
        (all_of is_long few.old.items many.old) served.old.items
        (all_of is_long few.new.items many.new) served.new.items start room.slots room.bytes s.sid s.bytes) }
    ensures none { result ≡ None
        → (all_of is_long few.new.items many.new ≡ all_of is_long few.old.items many.old)
        × (served.new ≡ served.old) × (tiers.new ≡ tiers.old) }
    ensures passed { is_long ≡ true
        → NoneWaitsBefore first.new (all_of is_long few.new.items many.new) }
    ensures reserved { HasRoom is_long (all_of is_long few.new.items many.new) served.new.items
        (vec_capacity served.new) }
    ensures lawful { IsLawful config.now }
{
    if is_long {
        let queue = many;
        return serve_long(queue, first, served, tiers, config, start, room);
    }
    serve_short(few, tiers, config, start, room)
}
