//! What the program finds in any file that it is to read: in a document, a script, the script of a storm or a history,
//! the fault that the command for it would end by, or what it has, and words on it; and in a journal or in the lines of
//! a conversation, which are read one by one, the number of each line that is wrong.
#![tactic(auto)]

mod check;
mod document;
mod document_kind;
mod finding;
mod form;
mod front;
mod input;
mod journal;
mod kind;
mod lines;
mod live;
mod names;
mod object_lines;
mod objects;
mod opening;
mod report;
mod text;
mod told_as;
mod told_input;
mod told_line;
mod verdict;
mod words;

pub use check::run_check_any;
pub use form::CheckForm;
pub use front::Front;
pub use input::check_any_input;
pub use told_input::{
    Advice, Documents, InputKind, Journals, Reads, advice_on, input_kind, tell_input,
};
pub use verdict::Verdict;
