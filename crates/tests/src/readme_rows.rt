//! The lines of the README that use the crates as a library.

use crate::base::BASE;
use map_codec::{MAX_BYTES, encode};
use minislots::Stamp;
use sched_history::{Call, Reply, Scheduler};
use std::alloc::AllocGlobal;
use std::test::Fail;

// The lines as they stand there, and the first four bytes of the first MAP.
#[test]
fn the_scheduler_is_used_as_a_library(rt: HostRuntime) -> Result<(), Fail> {
    let (alloc, config) = (rt.alloc(), BASE);
    let checked = config.check()?;
    let mut scheduler = Scheduler::open(alloc, checked)?;
    let stamp = Stamp { seat: 0, ticket: 0 };
    let Reply::Built(map) = scheduler.call(stamp, Call::Build { now: 760 })? else {
        return Err("the first build is not refused".into());
    };
    let mut payload = [0; MAX_BYTES];
    let length = encode(&map.wire, &mut payload);
    assert!(rt; payload.starts_with(&[3, 1, 3, 0]) && length == 28);
    Ok(())
}
