//! How a holder makes a call that waits at the lock of a scheduler.
use crate::shared::Desk;
use call_queue::Calling;
use sched_history::{Call, Reply, Unrecorded};
use std::sync::Wait;
use ticket_lock::Held;

/// The calls of a scheduler's seats. No value of it is made.
pub struct Calls;

impl Calling<Desk> for Calls {
    ghost use Rattle.shared_sched.specs.Calls.{IsMade};

    type Call = Call;

    type Reply = Result<Reply, Unrecorded>;

    ghost made = { IsMade };

    #[inline(always)]
    fn make<R: Wait>(
        rt: &R,
        held: &Held<Desk>,
        value: &mut Desk,
        call: Call,
    ) -> Result<Reply, Unrecorded> {
        value.call(rt, held.stamp(), call)
    }
}
