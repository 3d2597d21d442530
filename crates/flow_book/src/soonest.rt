//! Who is served first of a list of those that wait.

ghost use Rattle.std.specs.Prelude.{◌==◌, nat_lt, ℕ, ◌+◌};
ghost use Rattle.std.specs.Prelude.{◌≡◌, ◌<◌, List, length};
ghost use Rattle.std.specs.Prelude.{IfSome, MatchOption, Option, Some, take, filter, if◌then◌else◌};
ghost use Rattle.std.specs.List.{AllByRecursion};
ghost use Rattle.minislots.specs.Config.{IsLawful};
ghost use Rattle.flow_book.specs.declared.flow.Flow.{Flow};
ghost use Rattle.flow_book.specs.Entry.{IsRoom};
ghost use Rattle.flow_book.specs.Queue.{HasStartedPart, IsFirstAble, IsSoonest, IsPassed};
ghost use Rattle.flow_book.specs.Tiers.{turn_at};
ghost use Rattle.flow_book.specs.Queue.{NoneWaitsBefore, still_waits};

use crate::flow::Room;
use crate::tiers::Tier;
use crate::waiting::Waiting;
use minislots::Checked;

// Where in a list of those that wait, of which none before the first place wants anything, the first stands that may be
// served at this minislot.
#[inline(always)]
pub(crate) fn first_able(
    queue: &[Waiting],
    first: usize,
    tiers: &[Tier],
    config: &Checked,
    start: u64,
    room: Room,
) -> Option<usize>
    requires room { IsRoom config.now room }
    requires passed { NoneWaitsBefore first queue.now }
    requires started { (items : List Flow) × HasStartedPart config.now items tiers.now queue.now start }
    ensures next { (items : List Flow) → HasStartedPart config.now items tiers.now queue.now start → MatchOption result
        (AllByRecursion (IsPassed config.now start room.slots items) (filter still_waits queue.now))
        (IsFirstAble config.now items queue.now start room.slots) }
    ensures within { IfSome result (λ index. index < length queue.now) }
    ensures lawful { IsLawful config.now }
{
    let quantum = u64::from(config.quantum());
    for index in first..queue.len() {
        if queue[index].may_be_served(tiers, quantum, start, room) {
            return Some(index);
        }
        if room.bytes == 0 {
            return None;
        }
    }
    None
}

// One that may be served stands at this place in a list of those that wait, with this turn at a minislot.
#[derive(Clone, Copy)]
pub(crate) struct Able {
    pub(crate) index: usize,
    pub(crate) turn: u128,
}

impl Able {
    // The one of an earlier turn: this one where both are the same.
    fn sooner(self, other: Able) -> Able
        ensures { result ≡ (if nat_lt other.turn self.turn then other else self) }
    {
        if other.turn < self.turn { other } else { self }
    }
}

// Of those in a list that wait, one that may be served, which comes first of those up to its place, or the one behind
// it that comes before it at this minislot: the first of them.
#[inline(never)]
fn sooner_behind(
    queue: &[Waiting],
    able: Able,
    tiers: &[Tier],
    config: &Checked,
    start: u64,
    room: Room,
) -> Able
    requires room { IsRoom config.now room }
    requires within { able.index < length queue.now }
    requires started { (items : List Flow) × HasStartedPart config.now items tiers.now queue.now start }
    requires able { (items : List Flow) → HasStartedPart config.now items tiers.now queue.now start
        → IsSoonest config.now items tiers.now (take (able.index + 1) queue.now) queue.now start room.slots able.index
        able.turn }
    ensures next { (items : List Flow) → HasStartedPart config.now items tiers.now queue.now start
        → IsSoonest config.now items tiers.now queue.now queue.now start room.slots result.index result.turn }
    ensures within { result.index < length queue.now }
{
    let quantum = u64::from(config.quantum());
    let mut best = able;
    for index in able.index + 1..queue.len() {
        let waiting = &queue[index];
        if waiting.wants > 0 && best.turn <= waiting.turn {
            return best;
        }
        if waiting.may_be_served(tiers, quantum, start, room) {
            let turn = waiting.turn_at(tiers, config, start);
            best = best.sooner(Able { index, turn });
        }
    }
    best
}

// Where of those in a list that wait the one stands that is served first at this minislot, where the first of them that
// may be served stands at this place.
#[inline(always)]
pub(crate) fn soonest_of(
    queue: &[Waiting],
    index: usize,
    tiers: &[Tier],
    config: &Checked,
    start: u64,
    room: Room,
) -> usize
    requires room { IsRoom config.now room }
    requires within { index < length queue.now }
    requires started { (items : List Flow) × HasStartedPart config.now items tiers.now queue.now start }
    requires able { (items : List Flow) → HasStartedPart config.now items tiers.now queue.now start
        → IsFirstAble config.now items queue.now start room.slots index }
    ensures next { (items : List Flow) → HasStartedPart config.now items tiers.now queue.now start
        → (turn : ℕ) × IsSoonest config.now items tiers.now queue.now queue.now start room.slots result turn }
    ensures within { result < length queue.now }
{
    let waiting = &queue[index];
    let turn = waiting.turn_at(tiers, config, start);
    if turn == waiting.turn {
        return index;
    }
    let able = Able { index, turn };
    sooner_behind(queue, able, tiers, config, start, room).index
}

// Where in a list of those that wait, of which none before the first place wants anything, the one stands that is
// served first at this minislot, of those that may be served.
pub(crate) fn soonest(
    queue: &[Waiting],
    first: usize,
    tiers: &[Tier],
    config: &Checked,
    start: u64,
    room: Room,
) -> Option<Able>
    requires room { IsRoom config.now room }
    requires passed { NoneWaitsBefore first queue.now }
    requires started { (items : List Flow) × HasStartedPart config.now items tiers.now queue.now start }
    ensures next { (items : List Flow) → HasStartedPart config.now items tiers.now queue.now start → MatchOption result
        (AllByRecursion (IsPassed config.now start room.slots items) (filter still_waits queue.now))
        (λ able. IsSoonest config.now items tiers.now queue.now queue.now start room.slots able.index able.turn) }
    ensures within { IfSome result (λ able. able.index < length queue.now) }
    ensures lawful { IsLawful config.now }
{
    let first = first_able(queue, first, tiers, config, start, room)?;
    let index = soonest_of(queue, first, tiers, config, start, room);
    let turn = queue[index].turn_at(tiers, config, start);
    Some(Able { index, turn })
}
