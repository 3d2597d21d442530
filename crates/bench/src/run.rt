//! What a run took, and the line that tells it.

use std::time::{Clock, CpuClock, Duration, Instant};

/// The moment, and the processor time of the process so far.
#[derive(Clone, Copy)]
pub struct Moment {
    at: Instant,
    used: Duration,
}

/// What a run took, in nanoseconds: by the clock, and of all processors.
#[derive(Clone, Copy)]
pub struct Took {
    /// By the clock.
    pub wall: u64,
    /// Of all processors.
    pub used: u64,
}

/// This moment, or none where a clock cannot be read.
pub fn now<R: Clock + CpuClock>(rt: &R) -> Option<Moment> {
    match (Instant::now(rt), rt.process_cpu_time()) {
        (Ok(at), Ok(used)) => Some(Moment { at, used }),
        (_, _) => None,
    }
}

/// The nanoseconds of a time.
pub fn nanos_of(time: Duration) -> u64 {
    u64::try_from(time.as_nanos()).unwrap_or(u64::MAX)
}

/// The times between two moments, of a run that did what it was to do. None of any other.
pub fn figure(start: Option<Moment>, end: Option<Moment>, is_whole: bool) -> Option<Took> {
    let (start, end) = (start?, end?);
    if is_whole {
        Some(Took {
            wall: nanos_of(end.at.duration_since(start.at)),
            used: nanos_of(end.used.saturating_sub(start.used)),
        })
    } else {
        None
    }
}

/// Prints a line: how many threads did what, and the nanoseconds by the clock and of all processors of each of so many
/// calls.
pub fn print_line<R: Print>(
    rt: &R,
    threads: usize,
    what: &str,
    took: Took,
    calls: usize,
) -> Option<()> {
    let calls = (calls as u64).max(1);
    let (wall, used) = (
        took.wall.saturating_mul(10) / calls,
        took.used.saturating_mul(10) / calls,
    );
    println!(rt;
        "{threads} {what} {}.{} {}.{}",
        wall / 10,
        wall % 10,
        used / 10,
        used % 10
    )
    .ok()
}
