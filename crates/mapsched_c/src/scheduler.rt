//! What is asked of a scheduler.

ghost use Rattle.std.specs.Prelude.{◌≡◌, ◌≤◌, length, Some, IfOk};
ghost use Rattle.std.specs.List.{AllByRecursion};
ghost use Rattle.sched_history.specs.History.{IsLegal};
ghost use Rattle.sched_history.specs.Machine.{kept_of};
ghost use Rattle.sched_calls.specs.Reply.{IsEncodable};
ghost use Rattle.history_writing.specs.HistoryText.{history_text};
ghost use Rattle.mapsched_c.specs.Answer.{AnswersCall};
ghost use Rattle.mapsched_c.specs.Reply.{HasRoom};

use crate::reply::PlainReply;
use crate::status;
use history_writing::put_history;
use minislots::Stamp;
use sched_history::{Call, Entry, Scheduler, Unrecorded};
use std::alloc::{AllocError, Global};

// The entries that are kept, in order.
pub(crate) fn entries(scheduler: &Scheduler) -> &[Entry]
    ensures value { result.now ≡ kept_of scheduler.now }
    ensures encodable { AllByRecursion (λ e. IsEncodable e.reply) (kept_of scheduler.now) }
    ensures room { AllByRecursion (λ e. HasRoom e.reply) (kept_of scheduler.now) }
    ensures front { scheduler.now.handed ≤ length scheduler.now.history }
{
    let _cycle = scheduler.config().cycle();
    scheduler.history()
}

// The text of the history, of which nothing was handed over.
pub(crate) fn text_of(alloc: Global, scheduler: &Scheduler) -> Result<Vec<u8>, AllocError>
    requires { scheduler.now.handed ≡ 0 }
    ensures { IfOk result
        (λ text. text.items ≡ history_text scheduler.now.config scheduler.now.history) }
{
    let mut text = Vec::new(alloc);
    match put_history(
        alloc,
        &mut text,
        &scheduler.config().config(),
        entries(scheduler),
    ) {
        Ok(()) => Ok(text),
        Err(_) => Err(AllocError),
    }
}

// Answers a call and records it, and writes its reply. A call that is not recorded changes nothing.
#[tactic(auto, using(crate::proofs::Room::recorded_room))]
pub(crate) fn answer(
    scheduler: &mut Scheduler,
    stamp: Stamp,
    call: Call,
    reply: &mut PlainReply,
) -> u32
    ensures answer { AnswersCall scheduler.old (Some scheduler.new) stamp call
        result reply.old reply.new }
    ensures legal { IsLegal scheduler.new.config scheduler.new.history }
{
    let _cycle = scheduler.config().cycle();
    match scheduler.call(stamp, call) {
        Ok(answer) => {
            reply.put(&answer);
            status::OK
        }
        Err(Unrecorded::HistoryFull) => status::HISTORY_FULL,
        Err(Unrecorded::Memory) => status::OUT_OF_MEMORY,
    }
}
