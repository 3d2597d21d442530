//! A lock that is let go.

ghost use Rattle.std.specs.Prelude.{[]};

use minislots::Stamp;
use std::alloc::AllocGlobal;
use std::sync::atomic::AtomicU64;
use std::sync::atomic::Ordering::SeqCst;
use ticket_lock::{Journal, TicketLock};

// A journal without entries, which counts its drops.
struct Counted<'a> {
    drops: &'a AtomicU64,
}

impl Drop for Counted<'_> {
    fn drop(self) {
        let Self { drops } = self;
        drops.fetch_add(1, SeqCst);
    }
}

impl Journal for Counted<'_> {
    type Head = ();

    type Entry = Stamp;

    ghost head = { λ _. tt };

    ghost entries = { λ _. [] };

    ghost kept = { λ all. all };

    ghost stamp = { λ e. e };

    fn len(&self) -> usize {
        0
    }

    fn stamp_at(&self, _i: usize) -> Option<Stamp> {
        None
    }
}

#[test]
fn a_lock_that_is_let_go_drops_its_value(rt: HostRuntime) {
    let drops = AtomicU64::new(0);
    let Ok((lock, mut seats)) = TicketLock::open(rt.alloc(), Counted { drops: &drops }, 2, 0) else {
        panic!(rt; "two seats are allowed")
    };
    drop(seats.pop());
    assert!(rt; drops.load(SeqCst) == 0, "the value is in the lock");
    lock.discard();
    assert!(rt; drops.load(SeqCst) == 1, "the value is dropped once");
}
