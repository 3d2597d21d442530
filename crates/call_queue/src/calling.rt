//! What the calls of a queue are, and how a holder makes one.
ghost use Rattle.std.specs.Prelude.{◌≡◌};
ghost use Rattle.ticket_lock.specs.Standing.{Standing};
ghost use Rattle.ticket_lock.specs.Calls.{MayLeave};
ghost use Rattle.call_queue.specs.Turns.{IsHanded};

use std::sync::Wait;
use ticket_lock::{Held, Journal};

/// The calls that seats of a lock make on its value.
pub trait Calling<T: Journal> {
    /// A call.
    type Call;
    /// What it is answered with.
    type Reply;

    // What a call by this holder makes of the value, and its reply.
    ghost made: { Standing T.Head T.Entry → T → Self.Call → T → Self.Reply → Type 0 };

    /// Makes a call on the value, by the seat that holds the lock.
    fn make<R: Wait>(rt: &R, held: &Held<T>, value: &mut T, call: Self::Call) -> Self::Reply
        requires handed { IsHanded T.head T.entries held.now value.old }
        ensures may_leave { MayLeave T.stamp T.head T.entries held.now value.new }
        ensures made { made held.now value.old call value.new result };
}
