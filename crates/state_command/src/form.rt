//! In what form a state is written, and how the command ends.

ghost use Rattle.std.specs.Prelude.{◌≡◌};
ghost use Rattle.state_command.specs.States.{status_of};

/// What is written of a state.
#[derive(Clone, Copy, Debug, PartialEq, Eq)]
pub enum StateForm {
    /// The first line of the segment that could follow.
    Line,
    /// A table of the state.
    Table,
}

/// How the command ends, where neither a read nor a write failed.
#[derive(Clone, Copy, Debug, PartialEq, Eq)]
pub enum StateEnd {
    /// The state was written. Behind the last newline of a journal stand so many bytes, which count for nothing.
    Written(u64),
    /// An entry may not follow those before it.
    Illegal,
    /// This line of a journal, counted from 0, stands for nothing: the first for no lawful configuration and for no
    /// state, or a later one, before any illegal entry, for no entry.
    Bad(u64),
    /// The journal is a segment that goes on after others, which nobody judges yet.
    Segment,
}

impl StateEnd {
    /// The exit status of the program: 1 for an illegal entry, and 3 for what is not read.
    pub fn status(self) -> u8
        ensures { result ≡ status_of self }
    {
        match self {
            StateEnd::Written(_) => 0,
            StateEnd::Illegal => 1,
            StateEnd::Bad(_) | StateEnd::Segment => 3,
        }
    }
}
