//! What the workers of a storm gave back, put together.

ghost use Rattle.std.specs.Prelude.{◌≡◌, ◌≤◌, ◌<◌, ◌+◌, ◌^◌, ◌++◌, ◌∷◌, ◌||◌, [], length, vec_len, vec_capacity};
ghost use Rattle.sched_calls.specs.declared.call.TheConstants.{MAX_SCRIPTS};
ghost use Rattle.sched_storm.specs.Jobs.{GivesBack, Gathers, is_stopped, held_then};

use crate::gate::Gate;
use crate::jobs::Job;
use crate::starts::Starts;
use crate::worker::{Ended, Worked};
use shared_sched::Desk;
use ticket_lock::Seat;

/// The seats of all workers, in their order, and what they count together.
pub struct Gathered {
    /// The seats, in the order of their workers.
    pub seats: Vec<Seat<Desk>>,
    /// How many calls of all workers were not recorded.
    pub unrecorded: u64,
    /// The first worker that its gate held, if any.
    pub held: Option<usize>,
    /// Whether a worker was stopped.
    pub stopped: bool,
}

// Puts what one more worker gave back to what those before it did.
fn add(gathered: Gathered, worked: Worked) -> Gathered
    requires room { vec_len gathered.seats < vec_capacity gathered.seats }
    requires few { gathered.unrecorded + worked.unrecorded < 2 ^ 64 }
    ensures seats { result.seats.items ≡ gathered.seats.items ++ worked.seat ∷ [] }
    ensures len { vec_len result.seats ≡ vec_len gathered.seats + 1 }
    ensures room { vec_capacity result.seats ≡ vec_capacity gathered.seats }
    ensures unrecorded { result.unrecorded ≡ gathered.unrecorded + worked.unrecorded }
    ensures held { result.held
        ≡ held_then gathered.held (length gathered.seats.items) worked.ended }
    ensures stopped { result.stopped ≡ (gathered.stopped || is_stopped worked.ended) }
{
    let Gathered {
        mut seats,
        unrecorded,
        mut held,
        mut stopped,
    } = gathered;
    match worked.ended {
        Ended::Done => {}
        Ended::Held => held = held.or(Some(seats.len())),
        Ended::Stopped => stopped = true,
    }
    seats.push_reserved(worked.seat);
    Gathered {
        seats,
        unrecorded: unrecorded + worked.unrecorded,
        held,
        stopped,
    }
}

// Waits until a worker has ended.
fn join<R: Starts, G: Gate>(rt: &R, job: Job<R, G>) -> Worked
    ensures { GivesBack G.lets_pass G.holds_back R.lacks_thread job result }
{
    match job {
        Job::Started(handle) => handle.join(rt),
        Job::Refused(worked) => worked,
    }
}

/// Waits until all workers have ended, the last of the jobs first, and puts together what they gave back.
pub fn gather<R: Starts, G: Gate>(rt: &R, jobs: Vec<Job<R, G>>, row: Vec<Seat<Desk>>) -> Gathered
    requires empty { row.items ≡ [] }
    requires room { vec_len jobs ≤ vec_capacity row }
    requires few { vec_len jobs ≤ MAX_SCRIPTS }
    ensures gathers { Gathers G.lets_pass G.holds_back R.lacks_thread jobs.items result }
{
    let mut jobs = jobs;
    let mut gathered = Gathered {
        seats: row,
        unrecorded: 0,
        held: None,
        stopped: false,
    };
    while let Some(job) = jobs.pop() {
        gathered = add(gathered, join(rt, job));
    }
    gathered
}
