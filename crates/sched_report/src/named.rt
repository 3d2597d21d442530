//! Which SID an entry without a MAP names: its flow alone need be shown the entry.

ghost use Rattle.std.specs.Prelude.{◌≡◌};
ghost use Rattle.sched_report.specs.Named.{named_by};

use sched_history::{Call, Entry, Reply};

// The SID of an accepted admission, removal, request or change.
pub(crate) fn named_by(entry: &Entry) -> Option<u16>
    ensures { result ≡ named_by entry.now.call entry.now.reply }
{
    match (entry.call, &entry.reply) {
        (Call::Admit(sid, _), Reply::Admitted(_)) => Some(sid),
        (Call::Remove(sid), Reply::Removed) => Some(sid),
        (Call::Ask { sid, .. }, Reply::Taken) => Some(sid),
        (Call::Replace { sid, .. }, Reply::Taken) => Some(sid),
        (Call::Change(sid, _), Reply::Changed(_)) => Some(sid),
        _ => None,
    }
}
