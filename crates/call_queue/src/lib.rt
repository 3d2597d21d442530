//! A queue of calls at a ticket lock: a seat that waits leaves its ticket with its call, and whoever holds makes it.
#![tactic(auto)]

mod board;
mod calling;
mod calls;
mod deal;
mod others;
mod plays;
mod queue;
mod signs;
mod slip;
mod tray;
mod turns;
mod waiting;
mod waking;

pub use calling::Calling;
pub use deal::Deal;
pub use queue::CallQueue;
pub use tray::{Missed, Serving, Tray};
pub use turns::Turns;
pub use waiting::Waiting;
pub use waking::WakeDue;
