//! Many are put into a queue at once. It has as many places more, a gap, which moves forwards as they are put in from
//! the last on.

ghost use Rattle.std.specs.Prelude.{◌≡◌, ◌<◌, ◌≤◌, ◌+◌, ◌-◌, List, length, take, drop, OnOk, ◌++◌};
ghost use Rattle.std.specs.List.{AllByRecursion};
ghost use Rattle.sched_calls.specs.Sids.{AscendBy, put_in};
ghost use Rattle.flow_book.specs.Gap.{around, all_put_in};

use crate::waiting::Waiting;

// Puts one into a queue with a gap of so many places from the first on: of an earlier turn than those behind the gap.
// It goes to the last place of the gap, behind which those before the gap of later turns have moved. Answers where the
// gap begins then.
fn put_behind(queue: &mut [Waiting], first: usize, gap: usize, one: Waiting) -> usize
    requires gap { 0 < gap }
    requires within { first + gap ≤ length queue.old }
    requires ascending { AscendBy (λ w. w.turn) (take first queue.old) }
    requires earlier { AllByRecursion (λ w. one.turn < w.turn) (drop (first + gap) queue.old) }
    ensures put { around result (gap - 1) queue.new ≡ put_in (λ w. w.turn) one (around first gap queue.old) }
    ensures behind { AllByRecursion (λ w. one.turn ≤ w.turn) (drop (result + (gap - 1)) queue.new) }
    ensures front { take result queue.new ≡ take result queue.old }
    ensures within { result ≤ first }
    ensures len { length queue.new ≡ length queue.old }
{
    let mut first = first;
    while first > 0 && one.turn < queue[first - 1].turn {
        queue[first - 1 + gap] = queue[first - 1];
        first -= 1;
    }
    queue[first + gap - 1] = one;
    first
}

// Puts these into a queue that ends with a gap of as many places.
pub(crate) fn fill_gap(queue: &mut [Waiting], first: usize, ones: &[Waiting])
    requires within { first + length ones.now ≡ length queue.old }
    requires ascending { AscendBy (λ w. w.turn) (take first queue.old) }
    requires ones { AscendBy (λ w. w.turn) ones.now }
    ensures filled { queue.new ≡ all_put_in ones.now (take first queue.old) }
    ensures len { length queue.new ≡ length queue.old }
{
    let mut first = first;
    for index in (0..ones.len()).rev() {
        first = put_behind(queue, first, index + 1, ones[index]);
    }
}
