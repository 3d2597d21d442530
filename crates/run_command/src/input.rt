//! The command over what the program has: an input, and standard output, which is written with no buffer, so that
//! nothing is left to flush.

use crate::output::RunOutput;
use crate::run::run_with;
use sched_lines::tell_unrecorded;
use std::io;
use text_stream::{RunFault, Source, Watched};

/// The command `run`. Each call that was not recorded has its line; the text of a history and a journal do not tell of
/// them, so how many they are is told on standard error.
pub fn run_input<R: Source>(
    rt: &(impl Print + Eprint + AllocGlobal),
    reader: &mut R,
    output: RunOutput,
) -> Result<(), RunFault> {
    let mut writer = Watched::new(io::writer(rt));
    let unrecorded = run_with(rt.alloc(), reader, &mut writer, output)?;
    if !matches!(output, RunOutput::Lines(_)) {
        tell_unrecorded(rt, unrecorded);
    }
    Ok(())
}
