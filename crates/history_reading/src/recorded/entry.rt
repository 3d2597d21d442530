//! One entry of a history.

ghost use Rattle.std.specs.Prelude.{◌≡◌, IfOk};
ghost use Rattle.history_reading.specs.Replies.{entry_of};

use super::reply::reply_of;
use call_reading::call_of;
use json_fields::{Tree, member, number_u32, number_u64};
use minislots::Stamp;
use sched_calls::Entry;
use std::alloc::{AllocError, Global};

/// The entry that an object stands for: its stamp, its call as in a script, and its reply. Nothing says that the
/// reply may follow.
#[tactic(auto, unfolding(crate::specs::Replies::entry_of))]
pub fn entry_of<T: Tree>(alloc: Global, value: &T) -> Result<Option<Entry>, AllocError>
    ensures { IfOk result (λ entry. entry ≡ entry_of (T.shown value.now)) }
{
    let (Some(seat), Some(ticket), Some(called), Some(replied)) = (
        number_u32(value, "seat"),
        number_u64(value, "ticket"),
        member(value, "call"),
        member(value, "reply"),
    ) else {
        return Ok(None);
    };
    let Some(call) = call_of(called) else {
        return Ok(None);
    };
    let Some(reply) = reply_of(alloc, replied)? else {
        return Ok(None);
    };
    let stamp = Stamp { seat, ticket };
    Ok(Some(Entry { stamp, call, reply }))
}
