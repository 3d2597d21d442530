//! The calls that JSON objects stand for, in a tree or in the bytes of a text.
#![tactic(auto)]

mod call;
mod field;
mod flow;
mod found;
mod places;
mod quick_call;
mod usual;
mod usual_call;

pub use call::call_of;
pub use flow::flow_of;
pub use places::{InScript, read_quick_line};
pub use quick_call::{next_key, read_number, read_quick_call, read_text};
pub use usual::{FromTokens, read_single, read_usual};
