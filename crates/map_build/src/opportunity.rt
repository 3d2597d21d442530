//! The opportunities that wait for a MAP.

ghost use Rattle.std.specs.Prelude.{◌<◌, ◌≤◌, length, IfSome, IfNone};
ghost use Rattle.map_build.specs.Opportunities.{IsFirstUnmet, NoneUnmet};

use crate::MAX_WAITING;
use sched_calls::Opportunity;

// The place of the first waiting opportunity that the MAP does not have yet and that is at most so long.
pub(crate) fn first_unmet(
    waiting: &[Opportunity],
    met: &[bool; MAX_WAITING],
    room: u16,
) -> Option<usize>
    requires { length waiting.now ≤ MAX_WAITING }
    ensures found { IfSome result (IsFirstUnmet waiting.now met.now room) }
    ensures none { IfNone result (NoneUnmet waiting.now met.now room) }
{
    for place in 0..waiting.len() {
        if !met[place] && waiting[place].slots <= room {
            return Some(place);
        }
    }
    None
}
