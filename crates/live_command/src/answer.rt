//! The answer to a line.

ghost use Rattle.std.specs.Prelude.{◌≡◌, ◌≤◌, ◌<◌, List, ℕ, ◌++◌, length, Some, Ok, IfOk};
ghost use Rattle.std.specs.Prelude.{IfErr, OnOk, OnErr};
ghost use Rattle.text_stream.specs.declared.TheConstants.{MAX_LINE};
ghost use Rattle.text_stream.specs.Told.{IsTold};
ghost use Rattle.sched_history.specs.Machine.{kept_of};
ghost use Rattle.minislots.specs.declared.config.Config.{Config};
ghost use Rattle.sched_calls.specs.declared.reply.Entry.{Entry as Recorded};
ghost use Rattle.sched_calls.specs.Reply.{Answer, HasLine};
ghost use Rattle.live_command.specs.Answers.{MayGet, after, answer_line, AnswersHeard, SaysOne};
ghost use Rattle.live_command.specs.Answers.{Point, IsCounted, Counted};
ghost use Rattle.live_command.specs.Spoken.{asked_said, asked_of_line, asked_in, call_heard, heard_of};

use crate::asked::Asked;
use crate::blank::is_spoken;
use crate::fault::LineFault;
use crate::outbox::Outbox;
use crate::said::{Said, read_said};
use crate::standing::Standing;
use crate::wording::Wording;
use json::Scratch;
use minislots::Stamp;
use sched_history::{Call, Reply, Scheduler, Unrecorded};
use std::alloc::Global;
use text_stream::{Lines, MAX_LINE, TextFault, Told};

// What is asked for, where something is.
fn asked_said(said: Said) -> Result<Asked, LineFault>
    ensures { result ≡ asked_said said }
{
    match said {
        Said::Call(Some(call)) => Ok(Asked::Call(call)),
        Said::Stats => Ok(Asked::Stats),
        _ => Err(LineFault::Shape),
    }
}

// What a line asks for that is not long, or its first fault.
fn read_short(
    alloc: Global,
    scratch: &mut Scratch,
    line: &[u8],
) -> Result<Result<Asked, LineFault>, TextFault>
    requires { length line.now ≤ MAX_LINE }
    ensures ok { IfOk result (λ asked. asked ≡ asked_of_line line.now) }
    ensures err { IfErr result (λ e. e ≡ TextFault.Memory) }
{
    match read_said(alloc, scratch, line) {
        Ok(said) => Ok(asked_said(said)),
        Err(TextFault::NotJson) => Ok(Err(LineFault::Json)),
        Err(_) => Err(TextFault::Memory),
    }
}

// What a line asks for, or its first fault.
#[tactic(auto, using(crate::proofs::Saying::asked_of_long))]
fn read_asked(
    alloc: Global,
    scratch: &mut Scratch,
    line: &[u8],
) -> Result<Result<Asked, LineFault>, TextFault>
    ensures ok { IfOk result (λ asked. asked ≡ asked_of_line line.now) }
    ensures err { IfErr result (λ e. e ≡ TextFault.Memory) }
{
    if line.len() > MAX_LINE {
        return Ok(Err(LineFault::Long));
    }
    read_short(alloc, scratch, line)
}

// The stamp of the next call: it has seat 0, and its place in the history for a ticket.
fn next_stamp(scheduler: &Scheduler) -> Stamp
    ensures { result ≡ record { seat = 0; ticket = length scheduler.now.history } }
{
    Stamp {
        seat: 0,
        ticket: scheduler.recorded(),
    }
}

// Makes a call.
fn make_call(scheduler: &mut Scheduler, call: Call) -> Result<Reply, Unrecorded>
    requires { length (kept_of scheduler.old) < scheduler.old.config.calls }
    ensures may { MayGet scheduler.old.config scheduler.old.history call result }
    ensures state { scheduler.new
        ≡ record scheduler.old { history = after scheduler.old.history call result } }
    ensures line { HasLine result }
{
    let stamp = next_stamp(scheduler);
    scheduler.call(stamp, call)
}

// Makes a build, and counts the Reserves that lapse with it. One that cannot be planned is a call as others are.
fn make_build(scheduler: &mut Scheduler, outbox: &mut Outbox, now: u64) -> Result<Reply, Unrecorded>
    requires { length (kept_of scheduler.old) < scheduler.old.config.calls }
    ensures may { MayGet scheduler.old.config scheduler.old.history (Call.Build now) result }
    ensures state { scheduler.new
        ≡ record scheduler.old { history = after scheduler.old.history (Call.Build now) result } }
    ensures line { HasLine result }
    ensures outbox { outbox.new ≡ outbox.old }
{
    let stamp = next_stamp(scheduler);
    match scheduler.plan(now) {
        Ok(planned) => {
            outbox.count_lapsed(scheduler.lapses(&planned));
            Ok(scheduler.commit(stamp, planned))
        }
        Err(_) => make_call(scheduler, Call::Build { now }),
    }
}

// Makes a call, and counts the Reserves that lapse with it.
fn make_counted(
    scheduler: &mut Scheduler,
    outbox: &mut Outbox,
    call: Call,
) -> Result<Reply, Unrecorded>
    requires { length (kept_of scheduler.old) < scheduler.old.config.calls }
    ensures may { MayGet scheduler.old.config scheduler.old.history call result }
    ensures state { scheduler.new
        ≡ record scheduler.old { history = after scheduler.old.history call result } }
    ensures line { HasLine result }
    ensures outbox { outbox.new ≡ outbox.old }
{
    match call {
        Call::Build { now } => make_build(scheduler, outbox, now),
        _ => make_call(scheduler, call),
    }
}

// Counts a call where it was recorded.
fn count_call(outbox: &mut Outbox, call: &Call, answer: &Result<Reply, Unrecorded>)
    ensures text { outbox.new.text ≡ outbox.old.text }
    ensures counted { (c : Config) (h : List Recorded) → MayGet c h call.now answer.now
        → Counted h call.now answer.now outbox.old outbox.new }
{
    match answer {
        Ok(reply) => outbox.count(call, reply),
        Err(_) => (),
    }
}

// Makes a call, counts it where it is recorded, and puts its answer behind those that wait.
fn answer_call(
    scheduler: &mut Scheduler,
    outbox: &mut Outbox,
    call: Call,
    wording: Wording,
) -> Result<(), TextFault>
    requires { length (kept_of scheduler.old) < scheduler.old.config.calls }
    ensures ok { OnOk result ((answer : Answer)
        × MayGet scheduler.old.config scheduler.old.history call answer
        × (outbox.new.text ≡ outbox.old.text ++ answer_line wording answer)
        × (scheduler.new
        ≡ record scheduler.old { history = after scheduler.old.history call answer })
        × Counted scheduler.old.history call answer outbox.old outbox.new) }
    ensures unput { OnErr result ((answer : Answer)
        × MayGet scheduler.old.config scheduler.old.history call answer
        × (scheduler.new
        ≡ record scheduler.old { history = after scheduler.old.history call answer })) }
    ensures err { IfErr result (λ e. e ≡ TextFault.Memory) }
{
    let answer = make_counted(scheduler, outbox, call);
    count_call(outbox, &call, &answer);
    outbox.put_answer(&answer, wording)
}

// Answers what a line asks for.
fn answer_asked(
    scheduler: &mut Scheduler,
    outbox: &mut Outbox,
    asked: Asked,
    wording: Wording,
    journal_bytes: u64,
) -> Result<(), TextFault>
    requires { length (kept_of scheduler.old) < scheduler.old.config.calls }
    ensures ok { OnOk result ((p : Point) → p.history ≡ scheduler.old.history →
        IsCounted p outbox.old → AnswersHeard wording (Some (Ok asked)) p
        scheduler.old scheduler.new outbox.old outbox.new) }
    ensures unput { OnErr result ((p : Point) → p.history ≡ scheduler.old.history →
        IsCounted p outbox.old → SaysOne wording (Some (Ok asked)) p scheduler.old scheduler.new) }
    ensures err { IfErr result (λ e. e ≡ TextFault.Memory) }
{
    match asked {
        Asked::Call(call) => answer_call(scheduler, outbox, call, wording),
        Asked::Stats => {
            let now = Standing {
                backlog: scheduler.backlog(),
                lapsed: outbox.lapsed(),
                journal_bytes,
            };
            outbox.put_stats(&now)
        }
    }
}

// What is heard of a line: what it asks for or its first fault, and nothing of one that is not answered.
fn hear_text(
    alloc: Global,
    scratch: &mut Scratch,
    line: &[u8],
) -> Result<Option<Result<Asked, LineFault>>, TextFault>
    ensures ok { IfOk result (λ heard. heard ≡ asked_in line.now) }
    ensures err { IfErr result (λ e. e ≡ TextFault.Memory) }
{
    if !is_spoken(line) {
        return Ok(None);
    }
    match read_asked(alloc, scratch, line) {
        Ok(asked) => Ok(Some(asked)),
        Err(fault) => Err(fault),
    }
}

/// What is heard of the line that was told last.
pub(crate) fn hear_told(
    alloc: Global,
    scratch: &mut Scratch,
    lines: &Lines,
    told: Told,
) -> Result<Option<Result<Asked, LineFault>>, TextFault>
    ensures ok { IfOk result (λ heard. (line : List ℕ) → IsTold line told lines.now.line →
        heard ≡ asked_in line) }
    ensures err { IfErr result (λ e. e ≡ TextFault.Memory) }
{
    match told {
        Told::Long => Ok(Some(Err(LineFault::Long))),
        Told::Line => hear_text(alloc, scratch, lines.line()),
    }
}

// The call or the fault of what was heard.
fn call_heard(heard: Option<Result<Asked, LineFault>>) -> Option<Result<Call, LineFault>>
    ensures { result ≡ call_heard heard }
{
    match heard {
        Some(Ok(Asked::Call(call))) => Some(Ok(call)),
        Some(Err(fault)) => Some(Err(fault)),
        Some(Ok(Asked::Stats)) | None => None,
    }
}

/// The call of the line that was told last, or its first fault. Nothing of one that is not answered, or that asks for
/// the numbers of the conversation.
pub fn hear(
    alloc: Global,
    scratch: &mut Scratch,
    lines: &Lines,
    told: Told,
) -> Result<Option<Result<Call, LineFault>>, TextFault>
    ensures ok { IfOk result (λ heard. (line : List ℕ) → IsTold line told lines.now.line →
        heard ≡ heard_of line) }
    ensures err { IfErr result (λ e. e ≡ TextFault.Memory) }
{
    let heard = hear_told(alloc, scratch, lines, told)?;
    Ok(call_heard(heard))
}

/// Whether it is heard of a line that it asks for the numbers.
pub(crate) fn asks_stats(heard: &Option<Result<Asked, LineFault>>) -> bool {
    matches!(heard, Some(Ok(Asked::Stats)))
}

/// Answers what was heard of a line: what is said goes behind what waits. Nothing is said where nothing was heard.
/// Where memory runs out a call is made all the same, and its answer is not among those that wait. The numbers tell so
/// many bytes of the journal.
pub(crate) fn answer(
    scheduler: &mut Scheduler,
    outbox: &mut Outbox,
    heard: Option<Result<Asked, LineFault>>,
    wording: Wording,
    journal_bytes: u64,
) -> Result<(), TextFault>
    requires { length (kept_of scheduler.old) < scheduler.old.config.calls }
    ensures ok { OnOk result ((p : Point) → p.history ≡ scheduler.old.history →
        IsCounted p outbox.old →
        AnswersHeard wording heard p scheduler.old scheduler.new outbox.old outbox.new) }
    ensures unput { OnErr result ((p : Point) → p.history ≡ scheduler.old.history →
        IsCounted p outbox.old → SaysOne wording heard p scheduler.old scheduler.new) }
    ensures err { IfErr result (λ e. e ≡ TextFault.Memory) }
{
    match heard {
        Some(Ok(asked)) => answer_asked(scheduler, outbox, asked, wording, journal_bytes),
        Some(Err(fault)) => outbox.put_fault(fault),
        None => Ok(()),
    }
}
