//! The journals that are read: their entries, one after the other, each judged after those before it, and whole
//! journals, judged or resumed; in the memory of one line and of an auditor, however many lines there are.
#![tactic(auto)]

mod end;
mod entries;
mod judging;
mod line;
mod resuming;
mod unjudged;

pub use end::EntriesEnd;
pub use entries::{JournalEntries, Next};
pub use judging::{Judged, judge_journal};
pub use resuming::{Resumed, resume};
pub use unjudged::{Read, UnjudgedEntries};
