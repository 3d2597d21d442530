//! The table of a MAP, for a text in hexadecimal, or for each line of an input.
#![tactic(auto)]

mod asked;
mod decoded;
mod explained_fault;
mod form;
mod frame;
mod json;
mod json_lines;
mod json_map;
mod line;
mod lines;
mod shown;
mod table;

pub use form::{Form, JsonForm};
pub use frame::decode_frame;
pub use json_lines::{decode_json, decode_json_lines};
pub use lines::decode_lines;
pub use shown::{STANDARD_INPUT, show, show_json};
pub use table::{decode_text, put_table};
