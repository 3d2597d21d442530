//! A ticket lock that threads run: a value with a list of stamped entries, which one seat at a time holds.
#![tactic(auto)]

mod board;
mod closing;
mod fault;
mod journal;
mod laws;
mod lock;
mod opening;
mod plays;
mod quiet;
mod seat;
mod sleep;

pub use fault::LockFault;
pub use journal::Journal;
pub use laws::{follows_the_core, one_holder};
pub use lock::TicketLock;
pub use quiet::QuietLock;
pub use seat::{Held, Seat, Ticket};
