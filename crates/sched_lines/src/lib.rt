//! The lines of a run: one for the answer to each call, with the payload of a MAP or its whole frame, and for a refusal
//! what it means in words.
#![tactic(auto)]

mod frame;
mod framed;
mod hexadecimal;
mod line;
mod lines;
mod meaning;
mod named;
mod page;
mod unrecorded;

pub use frame::{frame_of, map_in};
pub use framed::put_framed_line;
pub use hexadecimal::write_hex;
pub use line::{put_number, refusal_number, refusal_value};
pub use lines::LineBuffer;
pub use meaning::put_meaning;
pub use named::put_named;
pub use unrecorded::tell_unrecorded;
