//! How many refused calls name each SID.

ghost use Rattle.std.specs.Prelude.{◌≡◌, ◌∷◌, ◌++◌, ◌<◌, [], List, length};
ghost use Rattle.sched_calls.specs.declared.reply.Entry.{Entry};
ghost use Rattle.sched_calls.specs.declared.reply.TheConstants.{MAX_WHOLE_HISTORY};
ghost use Rattle.sched_report.specs.RefusedSids.{sid_named, refused_sid, CountsRefusedSids};

use sched_history::{Call, Entry, Reply};

// The SID that a call names as that of a flow.
fn sid_named(call: Call) -> Option<u16>
    ensures { result ≡ sid_named call }
{
    match call {
        Call::Admit(sid, _) => Some(sid),
        Call::Ask { sid, .. } => Some(sid),
        Call::Change(sid, _) => Some(sid),
        Call::Remove(sid) => Some(sid),
        Call::Replace { sid, .. } => Some(sid),
        Call::Rest(sid) => Some(sid),
        Call::Status(sid) => Some(sid),
        Call::Wake(sid) => Some(sid),
        _ => None,
    }
}

// The SID that the call of an entry names, where it is refused.
fn refused_sid(entry: &Entry) -> Option<u16>
    ensures { result ≡ refused_sid entry.now.call entry.now.reply }
{
    match entry.reply {
        Reply::Refused(_) => sid_named(entry.call),
        _ => None,
    }
}

// Counts the SID that an entry names, where its call is refused.
pub(crate) fn count_refused_sid(counts: &mut [u64], entry: &Entry)
    requires { (h : List Entry) × CountsRefusedSids counts.old h × (length h < MAX_WHOLE_HISTORY) }
    ensures { (h : List Entry) → CountsRefusedSids counts.old h
        → CountsRefusedSids counts.new (h ++ entry.now ∷ []) }
{
    if let Some(sid) = refused_sid(entry) {
        counts[usize::from(sid)] += 1;
    }
}
