//! A bad line of a conversation that is told.

use live_command::LineFault;

/// A bad line that is told.
#[derive(Drop)]
pub(crate) struct ToldLine {
    /// Its number, counted from 1.
    pub number: u64,
    /// Why it is no call.
    pub fault: LineFault,
    /// Words on it.
    pub words: String,
}
