//! The audit of a history or of a journal, from its text to the line of its verdict, in words or in JSON.
#![tactic(auto)]

mod audit;
mod explained_audit;
mod form;
mod input;
mod journal;
mod json;

pub use audit::run_audit;
pub use form::{AuditForm, JournalForm};
pub use input::{audit_input, audit_journal_input};
pub use journal::{JournalEnd, run_audit_journal};
