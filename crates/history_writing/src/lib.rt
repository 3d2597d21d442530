//! The histories and the journals that are written.
#![tactic(auto)]

mod history;
mod journal;

pub use history::{put_count, put_flow, put_history, put_name, put_offsets};
pub use journal::{add_entry, opening_text, put_journal};
