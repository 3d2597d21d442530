//! The report on a history or a journal, from its text to the numbers of its channel.
#![tactic(auto)]

mod fed;
mod form;
mod history;
mod history_series;
mod input;
mod journal;
mod journal_report;
mod journal_series;
mod parts;
mod range;
mod ranged;
mod series;

pub use form::Form;
pub use history::run_report;
pub use history_series::run_series;
pub use input::{report_input, report_journal_input, series_input, series_of_journal_input};
pub use journal_report::run_journal_report;
pub use journal_series::run_journal_series;
pub use range::Range;
