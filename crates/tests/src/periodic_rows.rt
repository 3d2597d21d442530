//! The table beside its slow reference. Worked placements are tried on the program, in checks/worked_texts and
//! checks/plain_runs.

mod lists;
mod slow;
