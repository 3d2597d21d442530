//! A report, written: the numbers of a history as JSON and OpenMetrics for programs, and as tables for
//! people.
#![tactic(auto)]

mod cell;
mod gathered;
mod held;
mod life;
mod members;
mod metrics;
mod printed;
mod reserved;
mod tables;
mod text;

pub use metrics::metrics_text;
pub use printed::json_text;
pub use tables::report_text;
