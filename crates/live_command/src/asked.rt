//! What a line asks for.

use sched_history::Call;

/// What a line asks for that has no fault.
#[derive(Clone, Copy, Debug, PartialEq, Eq)]
pub enum Asked {
    /// That this call is made.
    Call(Call),
    /// The numbers of the conversation.
    Stats,
}
