//! Lists of admissions, requests, grants and removals, in which the book answers what the slow reference
//! does.

ghost use Rattle.std.specs.Prelude.{◌≡◌, IfOk, IfSome};
ghost use Rattle.std.specs.List.{AllByRecursion};
ghost use Rattle.flow_book.specs.Flows.{flow_of};
ghost use Rattle.flow_book.specs.Reserved.{with_grant};
ghost use Rattle.flow_book.specs.Book.{IsLive, changed};
ghost use Rattle.flow_book.specs.Choice.{HasStartedBy};

use super::slow;
use super::slow::SlowFlow;
use crate::base::BASE;
use crate::base::draws::Draws;
use flow_book::{Book, FlowSpec, Grant};
use std::alloc::{AllocError, AllocGlobal, Global};
use std::process::Abort;
use std::test::Fail;

// A book, and what the slow reference knows of its flows.
#[derive(Drop)]
struct Twins {
    book: Book,
    slow: Vec<SlowFlow>,
}

// Admits a flow, where none has its SID.
fn admit(
    twins: &mut Twins,
    alloc: Global,
    sid: u16,
    spec: FlowSpec,
    now: u64,
) -> Result<(), AllocError>
    requires { AllByRecursion (HasStartedBy now) twins.old.book.flows }
    ensures { IfOk result (λ _. AllByRecursion (HasStartedBy now) twins.new.book.flows) }
{
    if twins.book.flow(sid).is_some() {
        return Ok(());
    }
    twins.book.admit(sid, spec)?;
    twins.slow.push(SlowFlow {
        sid,
        spec,
        asked: 0,
        grants: Vec::new(alloc),
    })?;
    Ok(())
}

// Removes the flow of this SID, where there is one.
fn remove(twins: &mut Twins, sid: u16, now: u64)
    requires { AllByRecursion (HasStartedBy now) twins.old.book.flows }
    ensures { AllByRecursion (HasStartedBy now) twins.new.book.flows }
{
    if twins.book.flow(sid).is_none() {
        return;
    }
    twins.book.remove(sid);
    twins.slow.retain(|flow| flow.sid != sid);
}

// Asks for the flow of this SID, where there is one that takes requests.
fn ask(twins: &mut Twins, sid: u16, bytes: u32, now: u64)
    requires { AllByRecursion (HasStartedBy now) twins.old.book.flows }
    ensures { AllByRecursion (HasStartedBy now) twins.new.book.flows }
{
    let Some(spec) = twins.book.flow(sid) else {
        return;
    };
    if !spec.takes_requests() || twins.book.asked(sid) > u64::from(u32::MAX) {
        return;
    }
    twins.book.ask(sid, bytes, now);
    slow::ask(&mut twins.slow, sid, bytes);
}

// Grants the most to a live flow in so many minislots, and gives the bytes.
fn grant_most(book: &mut Book, sid: u16, start: u64, room: u32) -> Result<u32, AllocError>
    requires live { IsLive sid book.old.flows }
    requires started { IfSome (flow_of sid book.old.flows) (HasStartedBy start) }
    ensures { IfOk result (λ bytes. book.new.flows ≡
        changed sid (with_grant book.old.config (record { start = start; bytes = bytes })) book.old.flows) }
{
    book.reserve(1)?;
    let bytes = book.most(sid, start, room);
    if bytes == 0 {
        return Err(AllocError);
    }
    book.grant(sid, start, bytes);
    Ok(bytes)
}

// Grants the most to the flow that is served first, if there is one.
fn grant(twins: &mut Twins, now: u64, room: u32) -> Result<(), AllocError>
    requires { AllByRecursion (HasStartedBy now) twins.old.book.flows }
    ensures { IfOk result (λ _. AllByRecursion (HasStartedBy now) twins.new.book.flows) }
{
    let Some(sid) = twins.book.eligible(now, room) else {
        return Ok(());
    };
    let bytes = grant_most(&mut twins.book, sid, now, room)?;
    slow::grant(&mut twins.slow, sid, Grant { start: now, bytes })?;
    Ok(())
}

// The book answers of a flow what the slow reference does.
fn compare_flow(rt: &impl Abort, book: &Book, flow: &SlowFlow, now: u64, room: u32)
    requires { AllByRecursion (HasStartedBy now) book.now.flows }
{
    let sid = flow.sid;
    assert!(rt; book.flow(sid).is_some(), "flow {sid} at {now}");
    let most = flow.most(book.config(), now, room);
    assert_eq!(rt;
        book.outstanding(sid),
        flow.outstanding(),
        "outstanding of {sid} at {now}"
    );
    assert_eq!(rt; book.most(sid, now, room), most, "most of {sid} at {now}");
}

// The book answers what the slow reference does.
fn compare(rt: &impl Abort, twins: &Twins, now: u64, room: u32)
    requires { AllByRecursion (HasStartedBy now) twins.now.book.flows }
{
    assert_eq!(rt; twins.book.len(), twins.slow.len(), "flows at {now}");
    let first = slow::eligible(&twins.slow, twins.book.config(), now, room);
    assert_eq!(rt;
        twins.book.eligible(now, room),
        first,
        "eligible at {now} in {room}"
    );
    for flow in &twins.slow {
        compare_flow(rt, &twins.book, flow, now, room);
    }
}

// One change, drawn.
fn change(
    twins: &mut Twins,
    draws: &mut Draws,
    alloc: Global,
    now: u64,
    room: u32,
) -> Result<(), AllocError>
    requires { AllByRecursion (HasStartedBy now) twins.old.book.flows }
    ensures { IfOk result (λ _. AllByRecursion (HasStartedBy now) twins.new.book.flows) }
{
    let sid = draws.below(12) as u16;
    match draws.below(12) {
        0 | 1 => admit(twins, alloc, sid, draws.spec(), now)?,
        2 => remove(twins, sid, now),
        3..=5 => ask(twins, sid, draws.below(3_000), now),
        _ => grant(twins, now, room)?,
    }
    Ok(())
}

#[test]
fn the_book_answers_what_its_slow_reference_does(rt: HostRuntime) -> Result<(), Fail> {
    let mut draws = Draws::from_seed(3);
    let mut twins = Twins {
        book: Book::open(rt.alloc(), BASE.check()?)?,
        slow: Vec::new(rt.alloc()),
    };
    let mut now: u64 = 800;
    for _ in 0..2_000 {
        let room = draws.below(60);
        change(&mut twins, &mut draws, rt.alloc(), now, room)?;
        compare(&rt, &twins, now, room);
        now = draws.later(now);
    }
    Ok(())
}
