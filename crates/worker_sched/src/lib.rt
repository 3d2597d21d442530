//! The scheduler under the ticket lock without a press: workers, one for each thread, call it, and no call waits.
#![tactic(auto)]

mod closed;
mod drawn;
mod opening;
mod turning;
mod worker;
mod workplace;

pub use closed::Closed;
pub use drawn::{Drawn, Entered};
pub use opening::{open, open_without_end};
pub use turning::{Begin, Forget, HandOver};
pub use worker::{CloseFault, HireFault, Turn, Worker};
pub use workplace::{Desk, Workplace};
