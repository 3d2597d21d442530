//! The threads of a storm: one for each worker.

ghost use Rattle.std.specs.Prelude.{◌≡◌, ◌≤◌, [], reverse, vec_len, vec_capacity};
ghost use Rattle.ticket_lock.specs.Rule.{Every};
ghost use Rattle.sched_storm.specs.Jobs.{IsJob, AreJobsReady, EachOf, IsGathered, calls_each};
ghost use Rattle.sched_storm.specs.Work.{HasWorked};

use crate::gate::Gate;
use crate::gather::{Gathered, gather};
use crate::starts::{Starts, Stop};
use crate::worker::{Ended, Worked, work};
use minislots::Checked;
use sched_history::Call;
use shared_sched::{Desk, Shared};
use std::marker::PhantomData;
use std::snapshot::Snapshot;
use std::sync::Wait;
use std::thread;
use std::thread::{Promise, PromisedHandle, Scope};
use ticket_lock::Seat;

/// What a worker is given, for contracts alone.
#[derive(Drop)]
pub struct Given<R: Starts, G: Gate> {
    /// The scheduler's configuration.
    pub config: Snapshot<Checked>,
    /// The gate that lets the worker pass before each call.
    pub gate: Snapshot<G>,
    /// The seat by which it makes its calls.
    pub seat: Snapshot<Seat<Desk>>,
    /// The calls that it makes, in their order.
    pub script: Snapshot<Vec<Call>>,
    /// What starts its thread.
    pub starts: PhantomData<R>,
}

impl<R: Starts, G: Gate> Promise<Worked> for Given<R, G> {
    ghost kept_by = { λ given worked. HasWorked (G.lets_pass given.gate.value) (G.holds_back given.gate.value)
        R.lacks_thread given.config.value given.seat.value given.script.value.items worked.seat
        worked.unrecorded worked.ended };
}

/// A worker that runs, or one that got no thread and was ended.
#[derive(Drop)]
pub enum Job<R: Starts, G: Gate> {
    Started(PromisedHandle<Worked, Given<R, G>>),
    Refused(Worked),
}

/// Room for the threads of a storm and for the seats that come back, made before they start.
#[derive(Drop)]
pub struct Rooms<R: Starts, G: Gate> {
    /// Room for the workers that run, one for each script.
    pub jobs: Vec<Job<R, G>>,
    /// Room for their seats, one for each script.
    pub row: Vec<Seat<Desk>>,
}

// What a worker gives back, which was stopped.
fn stopped(worked: Worked) -> Worked
    ensures seat { result.seat ≡ worked.seat }
    ensures unrecorded { result.unrecorded ≡ worked.unrecorded }
    ensures ended { result.ended ≡ Ended.Stopped }
{
    let Worked {
        seat,
        unrecorded,
        ..
    } = worked;
    Worked {
        seat,
        unrecorded,
        ended: Ended::Stopped,
    }
}

// Starts a worker. Where it gets no thread, the storm is stopped, and the worker gives its seat back here.
fn start<'s, E: 's, R: Starts + Wait + Sync, G: Gate>(
    scope: &Scope<'s, E>,
    rt: &'s R,
    shared: &'s Shared,
    checked: Checked,
    gate: &'s G,
    stop: &'s Stop<R>,
    seat: Seat<Desk>,
    script: Vec<Call>,
) -> Job<R, G>
    requires own { seat.lock ≡ shared.now.lock }
    requires config { shared.now.config ≡ checked }
    ensures job { IsJob G.lets_pass G.holds_back R.lacks_thread
        checked gate.now seat script.items result }
{
    let given = Given {
        config: Snapshot::of(&checked),
        gate: Snapshot::of(gate),
        seat: Snapshot::of(&seat),
        script: Snapshot::of(&script),
        starts: PhantomData,
    };
    let run = move || -> Worked
        requires { seat.lock ≡ shared.now.lock }
        ensures { HasWorked
            (G.lets_pass gate.entry.now) (G.holds_back gate.entry.now) R.lacks_thread
            shared.entry.now.config seat script.items result.seat result.unrecorded result.ended }
    { work(rt, shared, gate, stop, seat, &script) };
    let error = match scope.spawn_with(given, run) {
        Ok(handle) => return Job::Started(handle),
        Err(error) => error,
    };
    let unstarted = rt.refused(error);
    stop.set();
    Job::Refused(stopped(unstarted()))
}

// Starts a worker for each seat, with the script at the same place, the last of the lists first.
fn start_all<'s, E: 's, R: Starts + Wait + Sync, G: Gate>(
    scope: &Scope<'s, E>,
    rt: &'s R,
    shared: &'s Shared,
    checked: Checked,
    gate: &'s G,
    stop: &'s Stop<R>,
    seats: Vec<Seat<Desk>>,
    scripts: Vec<Vec<Call>>,
    jobs: Vec<Job<R, G>>,
) -> Vec<Job<R, G>>
    requires own { Every (λ s. s.lock ≡ shared.now.lock) seats.items }
    requires config { shared.now.config ≡ checked }
    requires each { vec_len seats ≡ vec_len scripts }
    requires empty { jobs.items ≡ [] }
    requires room { vec_len seats ≤ vec_capacity jobs }
    ensures started { EachOf
        (IsJob G.lets_pass G.holds_back R.lacks_thread checked gate.now) seats.items
        (calls_each scripts.items) (reverse result.items) }
    ensures room { vec_len result ≤ vec_len seats }
{
    let (mut seats, mut scripts, mut jobs) = (seats, scripts, jobs);
    while let Some(seat) = seats.pop() {
        let Some(script) = scripts.pop() else {
            unreachable!()
        };
        jobs.push_reserved(start(scope, rt, shared, checked, gate, stop, seat, script));
    }
    jobs
}

/// Runs all workers at the same time, a thread for each, and waits until they have ended.
pub fn run_workers<R: Starts + Wait + Sync, G: Gate>(
    rt: &R,
    shared: &Shared,
    checked: Checked,
    gate: &G,
    seats: Vec<Seat<Desk>>,
    scripts: Vec<Vec<Call>>,
    rooms: Rooms<R, G>,
) -> Gathered
    requires config { shared.now.config ≡ checked }
    requires ready { AreJobsReady shared.now.lock seats scripts rooms.jobs rooms.row }
    ensures worked { IsGathered
        (G.lets_pass gate.now) (G.holds_back gate.now) R.lacks_thread checked
        seats.items (calls_each scripts.items) result }
{
    let stop = Stop::new();
    let stop = &stop;
    thread::scope(
        thread::scope_env(),
        rt,
        move |scope| -> Gathered
            requires config { shared.now.config ≡ checked }
            requires ready { AreJobsReady shared.now.lock seats scripts rooms.jobs rooms.row }
            ensures { IsGathered
                (G.lets_pass gate.entry.now) (G.holds_back gate.entry.now) R.lacks_thread
                checked seats.items (calls_each scripts.items) result }
        {
            let Rooms { jobs, row } = rooms;
            let jobs = start_all(scope, rt, shared, checked, gate, stop, seats, scripts, jobs);
            gather(rt, jobs, row)
        },
    )
}
