//! What a run writes.

ghost use Rattle.std.specs.Prelude.{◌≡◌};
ghost use Rattle.run_command.specs.Run.{output_asked};

/// Whether the line of a refusal has what it means behind it.
#[derive(Clone, Copy, Debug, PartialEq, Eq)]
pub enum Words {
    /// No line has words behind it.
    Plain,
    /// Behind the line of a refusal stand two spaces, a number sign and what it means.
    Explained,
}

/// What a run writes.
#[derive(Clone, Copy, Debug, PartialEq, Eq)]
pub enum RunOutput {
    /// One line for the answer to each call.
    Lines(Words),
    /// The history of the recorded calls in JSON, in one line.
    History,
    /// The journal of the recorded calls: a line for the configuration, and one for each of them.
    Journal,
}

// What is written where a history is asked for, or plain lines.
pub(crate) fn output_asked(as_history: bool) -> RunOutput
    ensures { result ≡ output_asked as_history }
{
    if as_history {
        RunOutput::History
    } else {
        RunOutput::Lines(Words::Plain)
    }
}
