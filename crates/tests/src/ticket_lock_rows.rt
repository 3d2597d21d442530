//! A vector of stamps under the lock.

ghost use Rattle.std.specs.Prelude.{◌≡◌, Some};
ghost use Rattle.ticket_lock.specs.Standing.{seats_of, head_of, seen};
ghost use Rattle.ticket_lock.specs.Calls.{new_standing};

use minislots::Stamp;
use std::alloc::{AllocGlobal, Global};
use std::process::Abort;
use ticket_lock::{Held, Journal, Seat, TicketLock};

mod letting_go;
mod threads;

// The journal of the tests: its entries are stamps, and its head says nothing.
#[derive(Drop)]
struct Stamps {
    list: Vec<Stamp>,
}

impl Journal for Stamps {
    type Head = ();

    type Entry = Stamp;

    ghost head = { λ _. tt };

    ghost entries = { λ s. s.list.items };

    ghost kept = { λ all. all };

    ghost stamp = { λ e. e };

    fn len(&self) -> usize {
        self.list.len()
    }

    fn stamp_at(&self, i: usize) -> Option<Stamp> {
        self.list.get(i).copied()
    }
}

// Adds an entry of this holder, or nothing, and leaves.
fn end_turn(lock: &TicketLock<Stamps>, held: Held<Stamps>, value: Stamps, add: bool) -> Seat<Stamps>
    requires own { held.lock ≡ lock.now }
    requires seen { value.list.items ≡ seen held }
    requires head { head_of held.lock ≡ Some tt }
    ensures own { result.lock ≡ lock.now }
{
    let mut value = value;
    if add {
        let stamp = held.stamp();
        match value.list.push(stamp) {
            Ok(()) => {}
            Err(_) => {}
        }
    }
    lock.leave(held, value)
}

// A lock with two seats and an empty list.
fn pair(
    rt: &impl Abort,
    alloc: Global,
    first: u64,
) -> (TicketLock<Stamps>, Seat<Stamps>, Seat<Stamps>)
    ensures zero { result.1 ≡ new_standing result.0 0 }
    ensures one { result.2 ≡ new_standing result.0 1 }
    ensures count { seats_of result.0 ≡ 2 }
    ensures head { head_of result.0 ≡ Some tt }
{
    let empty = Stamps {
        list: Vec::new(alloc),
    };
    let Ok((lock, mut seats)) = TicketLock::open(alloc, empty, 2, first) else {
        panic!(rt; "no memory")
    };
    let one = seats.pop();
    let zero = seats.pop();
    let (Some(zero), Some(one)) = (zero, one) else {
        unreachable!()
    };
    seats.destroy_empty();
    (lock, zero, one)
}

// Closes a lock with two seats, and gives its list.
fn close_pair(
    rt: &impl Abort,
    alloc: Global,
    lock: TicketLock<Stamps>,
    zero: Seat<Stamps>,
    one: Seat<Stamps>,
) -> Vec<Stamp>
    requires zero { zero.lock ≡ lock }
    requires one { one.lock ≡ lock }
    requires count { seats_of lock ≡ 2 }
{
    let Ok(mut seats) = Vec::with_capacity(alloc, 2) else {
        panic!(rt; "no memory")
    };
    seats.push_reserved(zero);
    seats.push_reserved(one);
    let Stamps { list } = lock.close(seats);
    list
}

// Two seats draw, the second is turned away until the first has left, and only the second adds an entry.
fn take_two_turns(rt: &impl Abort, alloc: Global, first: u64) {
    let (lock, zero, one) = pair(rt, alloc, first);
    let (zero, one) = (lock.draw(zero), lock.draw(one));
    let second = one.number();
    assert!(rt;
        zero.number() == first && second == first.wrapping_add(1),
        "the tickets"
    );
    let one = match lock.try_enter(one) {
        Ok(_entered) => panic!(rt; "ticket {second} is not served"),
        Err(back) => back,
    };
    let (held, value) = match lock.try_enter(zero) {
        Ok(entered) => entered,
        Err(_back) => panic!(rt; "ticket {first} is served"),
    };
    let stamp = held.stamp();
    assert!(rt;
        stamp.seat == 0 && stamp.ticket == first && value.len() == 0,
        "the holder"
    );
    let zero = end_turn(&lock, held, value, false);
    let (held, value) = match lock.try_enter(one) {
        Ok(entered) => entered,
        Err(_back) => panic!(rt; "ticket {second} is served"),
    };
    let one = end_turn(&lock, held, value, true);
    let list = close_pair(rt, alloc, lock, zero, one);
    let added = [Stamp {
        seat: 1,
        ticket: second,
    }];
    assert!(rt;
        list.as_slice() == added.as_slice(),
        "the list behind {first}"
    );
}

#[test]
fn seats_enter_in_the_order_of_their_tickets(rt: HostRuntime) {
    take_two_turns(&rt, rt.alloc(), 0);
    take_two_turns(&rt, rt.alloc(), u64::MAX);
}
