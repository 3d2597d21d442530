//! The tests of all crates: what no clause says, and neither the program nor the library for C can show.
#![tactic(auto)]

#[cfg(test)]
mod base;
#[cfg(test)]
mod flow_book_rows;
#[cfg(test)]
mod opening_rows;
#[cfg(test)]
mod periodic_rows;
#[cfg(test)]
mod readme_rows;
#[cfg(test)]
mod refused_rows;
#[cfg(test)]
mod sched_report_rows;
#[cfg(test)]
mod sched_storm_rows;
#[cfg(test)]
mod shared_sched_rows;
#[cfg(test)]
mod state_rows;
#[cfg(test)]
mod ticket_lock_rows;
#[cfg(test)]
mod worker_sched_rows;
