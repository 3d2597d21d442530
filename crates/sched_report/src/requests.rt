//! The request of a flow that an entry is.

ghost use Rattle.std.specs.Prelude.{◌≡◌, ◌≤◌, ◌++◌, ◌∷◌, [], List, ℕ, Some, length};
ghost use Rattle.sched_calls.specs.declared.reply.Entry.{Entry as Recorded};
ghost use Rattle.sched_report.specs.declared.service.Request.{Request as Asked};
ghost use Rattle.sched_report.specs.Named.{HasNoMap};
ghost use Rattle.sched_report.specs.Requests.{request_for, request_by, supersedes};
ghost use Rattle.sched_report.specs.Served.{IsServiceAfter, HasRoom, MayCount};

use crate::service::{Request, Service};
use minislots::Checked;
use sched_calls::Amount;
use sched_history::{Call, Entry, Reply};

// A request for so much, where it is of this SID and for any bytes.
fn request_for(
    config: &Checked,
    sid: u16,
    other: u16,
    amount: Amount,
    heard: u64,
) -> Option<Request>
    ensures { result ≡ request_for config.now sid other amount heard }
{
    if other != sid {
        return None;
    }
    let bytes = amount.bytes(config);
    if bytes > 0 {
        Some(Request { bytes, heard })
    } else {
        None
    }
}

// The accepted request of this SID that an entry is.
pub(crate) fn request_of(config: &Checked, sid: u16, entry: &Entry) -> Option<Request>
    ensures { result ≡ request_by config.now sid entry.now.call entry.now.reply }
{
    match (entry.call, &entry.reply) {
        (
            Call::Ask {
                sid: other,
                amount,
                heard,
                ..
            },
            Reply::Taken,
        ) => request_for(config, sid, other, amount, heard),
        (
            Call::Replace {
                sid: other,
                amount,
                heard,
                ..
            },
            Reply::Taken,
        ) => request_for(config, sid, other, amount, heard),
        _ => None,
    }
}

// Whether an entry is an accepted request of this SID that supersedes those before.
fn supersedes(sid: u16, entry: &Entry) -> bool
    ensures { result ≡ supersedes sid entry.now }
{
    match (entry.call, &entry.reply) {
        (Call::Replace { sid: other, .. }, Reply::Taken) => other == sid,
        _ => false,
    }
}

// Counts the request that an entry without a MAP is, where it is one of this SID.
pub(crate) fn note_request(service: &mut Service, config: &Checked, sid: u16, entry: &Entry)
    requires may { (passed : ℕ) × (before : List Recorded) × IsServiceAfter config.now service.old sid passed before
        × (passed ≤ length before) × MayCount config.now sid before entry.now }
    requires room { (r : Asked) → request_by config.now sid entry.now.call entry.now.reply ≡ Some r
        → HasRoom service.old }
    requires unbuilt { HasNoMap entry.now.reply }
    ensures { (passed : ℕ) (before : List Recorded) → IsServiceAfter config.now service.old sid passed before
        → passed ≤ length before
        → IsServiceAfter config.now service.new sid passed (before ++ entry.now ∷ []) }
{
    if supersedes(sid, entry) {
        service.supersede();
    }
    if let Some(request) = request_of(config, sid, entry) {
        service.ask(request);
    }
}
