//! A book takes in the data grants of a MAP.

ghost use Rattle.std.specs.Prelude.{◌≡◌, ◌≤◌, ◌++◌, List, map, filter, take, drop, length, OnOk};
ghost use Rattle.minislots.specs.declared.config.Config.{Config};
ghost use Rattle.flow_book.specs.declared.flow.Flow.{Flow};
ghost use Rattle.flow_book.specs.Entry.{live, IsBook};
ghost use Rattle.flow_book.specs.Queue.{IsQueue, IsQueueIn, still_waits};
ghost use Rattle.flow_book.specs.Taking.{CanBeTaken, IsTaken};

use crate::flow_list::FlowList;
use crate::flows::Flows;
use crate::queue_list::Queue;
use crate::tiers::Tier;
use crate::waiting::Waiting;
use std::alloc::AllocError;

// Gives each flow that a MAP served the data grants that it has after it, and what is kept of it.
pub(crate) fn take_over(flows: &mut Flows, served: &[Waiting], tiers: &[Tier], after: &FlowList)
    requires { (c : Config) × (items : List Flow)
        × CanBeTaken c flows.old items tiers.now served.now × (map live items ≡ after.now.items) }
    ensures { (c : Config) (items : List Flow) → CanBeTaken c flows.old items tiers.now served.now
        → map live items ≡ after.now.items → IsTaken c flows.new items }
{
    for waiting in served {
        let place = waiting.place as usize;
        let flow = flows.at_mut(place);
        flow.take_over(waiting, tiers, FlowList::grants_at(after, &place));
    }
}

// The place behind the last of a queue that waits no more, 0 where all wait.
pub(crate) fn behind_last_idle(queue: &[Waiting]) -> usize
    ensures within { result ≤ length queue.now }
    ensures waiting { filter still_waits (drop result queue.now) ≡ drop result queue.now }
{
    let mut at = queue.len();
    while at > 0 && queue[at - 1].wants > 0 {
        at -= 1;
    }
    at
}

// Moves those of a queue before this place that still wait up to it, in their order, and answers where the first of
// them stands then.
pub(crate) fn close_up(queue: &mut [Waiting], upto: usize) -> usize
    requires { upto ≤ length queue.old }
    ensures closed { drop result queue.new ≡ filter still_waits (take upto queue.old) ++ drop upto queue.old }
    ensures within { result ≤ upto }
    ensures len { length queue.new ≡ length queue.old }
{
    let mut first = upto;
    for index in (0..upto).rev() {
        if queue[index].wants > 0 {
            first -= 1;
            queue[first] = queue[index];
        }
    }
    first
}

// Makes a queue of those that still wait in the two parts, by their turns.
pub(crate) fn merge(queue: &mut Queue, served: Vec<Waiting>) -> Result<(), AllocError>
    requires { (c : Config) × (items : List Flow) × IsBook c items
        × IsQueueIn items queue.old served.items }
    ensures { OnOk result ((c : Config) (items : List Flow) → IsBook c items
        → IsQueueIn items queue.old served.items → IsQueue items queue.new) }
{
    let mut served = served;
    served.retain(|waiting| waiting.wants > 0);
    queue.drop_idle();
    queue.put_all(&served)
}
