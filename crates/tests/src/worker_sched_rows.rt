//! What nobody can do from C with workers: that one with a ticket is let go. All else of workers is tried from C, by
//! checks/from_c.

use crate::base::{BASE, checked};
use std::alloc::AllocGlobal;
use worker_sched::{CloseFault, Worker};

#[test]
fn a_close_tells_that_a_ticket_was_let_go_with_its_worker(rt: HostRuntime) {
    let Ok(mut first) = Worker::open(rt.alloc(), checked(&rt, BASE), 2) else {
        panic!(rt; "no memory")
    };
    let Ok(mut second) = first.hire(rt.alloc()) else {
        panic!(rt; "no memory")
    };
    let drew = unsafe { second.draw() };
    assert!(rt; drew, "a seat is with the second worker");
    drop(second);
    assert!(rt; matches!(first.close(), Err(CloseFault::NotServed)));
    assert!(rt; first.has_ticket(), "the ticket drawn in vain");
}
