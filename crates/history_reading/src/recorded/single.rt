//! The entry that is a whole text.

ghost use Rattle.std.specs.Prelude.{◌≡◌, IfOk, IfSome};
ghost use Rattle.sched_calls.specs.Reply.{IsEncodable};
ghost use Rattle.history_reading.specs.Recorded.{entry_in};

use super::entry::entry_of;
use super::quick_entry::InHistory;
use call_reading::read_single;
use json_fields::Stop;
use sched_calls::Entry;
use std::alloc::{AllocError, Global};
use text_stream::{TextFault, parse};

// The entry that a text is, read as a tree.
#[tactic(auto, unfolding(crate::specs::Recorded::entry_in))]
fn entry_in_tree(alloc: Global, bytes: &[u8]) -> Result<Option<Entry>, AllocError>
    ensures { IfOk result (λ entry. entry ≡ entry_in bytes.now) }
{
    match parse(alloc, bytes) {
        Ok(value) => entry_of(alloc, &value),
        Err(TextFault::Memory) => Err(AllocError),
        Err(_) => Ok(None),
    }
}

/// The entry that a text is: one JSON value as it stands among the entries of a history's document, and nothing else
/// but white space. Nothing says that its reply may follow, but its MAP has bytes where it has one.
pub fn entry_in(alloc: Global, bytes: &[u8]) -> Result<Option<Entry>, AllocError>
    ensures value { IfOk result (λ entry. entry ≡ entry_in bytes.now) }
    ensures encodable { IfOk result (λ entry. IfSome entry (λ e. IsEncodable e.reply)) }
{
    match read_single::<InHistory, Entry>(alloc, bytes) {
        Ok(entry) => Ok(Some(entry)),
        Err(Stop::Memory) => Err(AllocError),
        Err(Stop::Unusual) => entry_in_tree(alloc, bytes),
    }
}
