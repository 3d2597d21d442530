//! How many entries each seat made.
ghost use Rattle.std.specs.Prelude.{◌≡◌, ◌<◌, length, sum};
ghost use Rattle.std.specs.List.{All};
ghost use Rattle.ticket_core.specs.declared.TheConstants.{MAX_SEATS};
ghost use Rattle.sched_desk.specs.Closed.{CountsEach};

use sched_history::Entry;
use ticket_core::MAX_SEATS;

/// How many entries of the history each seat made, by the seats' numbers.
pub fn count_each(history: &[Entry]) -> [u64; MAX_SEATS]
    requires seats { All (λ e. e.stamp.seat < MAX_SEATS) history.now }
    ensures counts { CountsEach result history.now }
    ensures total { sum result ≡ length history.now }
{
    let mut counts = [0; MAX_SEATS];
    for entry in history {
        counts[entry.stamp.seat as usize] += 1;
    }
    counts
}
