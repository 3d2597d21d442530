//! A scheduler that is talked to: lines in, a line out for each, and a journal of what was recorded.
#![tactic(auto)]

mod answer;
mod asked;
mod blank;
mod difference;
mod fault;
mod field;
mod going;
mod input;
mod journal;
mod live;
mod noting;
mod numbers;
mod opening;
mod outbox;
mod said;
mod standing;
mod stats;
mod talk;
mod turn;
mod wording;

pub use answer::hear;
pub use blank::{is_spoken, is_told_spoken};
pub use difference::{Difference, first_difference};
pub use fault::{LineFault, LiveFault};
pub use field::{Field, Member, Usage};
pub use going::go_on;
pub use input::live_input;
pub use journal::{BeginFault, Journal, NoJournal, RecordFault};
pub use live::hold;
pub use opening::opening_in;
pub use talk::converse;
pub use wording::Wording;
