//! The picture of a run, of a history or of a journal: the calls of a script are made, and the frames of the MAPs are
//! drawn.
#![tactic(auto)]

mod draw;
mod input;
mod journal;
mod recorded;

pub use draw::draw_script;
pub use input::{draw_input, draw_journal_input};
pub use journal::draw_journal;
pub use recorded::draw_history;
