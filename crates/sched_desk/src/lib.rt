//! The desk of a scheduler under the ticket lock, with a press that publishes its MAPs or with none: what its holder
//! has, what a call of the holder does, and how it is closed.
#![tactic(auto)]

mod building;
mod calling;
mod closing;
mod counting;
mod desk;
mod docket;
mod event;
mod handing_over;
mod kept;
mod laws;
mod recorder;
mod records;

pub use closing::close;
pub use counting::count_each;
pub use desk::{Desk, DeskHead};
pub use event::Event;
pub use laws::one_holder;
pub use recorder::Recorder;
pub use records::Records;
