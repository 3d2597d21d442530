//! The book beside its slow reference. A bucket's worked rows are theorems of flow_book; the reasons against
//! parameters, turns and amounts are tried on the program, in checks/worked_texts and checks/plain_runs.

mod lists;
mod slow;
