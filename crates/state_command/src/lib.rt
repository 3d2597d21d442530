//! The state that a run, a history or a journal leaves: the first line of the segment that could follow, or a table.
#![tactic(auto)]

mod form;
mod front;
mod history;
mod input;
mod journal;
mod kind;
mod script;
mod table;
mod told;

pub use form::{StateEnd, StateForm};
pub use history::state_of_history;
pub use input::state_input;
pub use journal::state_of_journal;
pub use script::state_of_script;
