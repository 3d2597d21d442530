//! A journal in a file, which is locked while a conversation is recorded in it, and which another conversation resumes.
#![tactic(auto)]

mod change;
mod end;
mod failed;
mod fault;
mod found;
mod input;
mod journal;
mod lacking;
mod line_file;
mod notes;
mod opening;
mod place;
mod reading;
mod store;
mod whole;

pub use change::Change;
pub use end::{Cause, JournalEnd, Stop};
pub use failed::{FailedCall, Operation};
pub use fault::{FileFault, JournalFault};
pub use input::live_journal_input;
pub use journal::FileJournal;
pub use notes::{ErrorNotes, Note, Notes};
pub use opening::open_journal;
pub use store::{Store, SystemFile};
pub use whole::live_journal;
