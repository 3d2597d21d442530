//! The command over what the program has: standard input and standard output, which is written with no buffer, so that
//! nothing is left to flush.

use crate::command::{BurstsForm, run_bursts};
use std::io;
use text_stream::{RunFault, Watched};

/// The command `bursts`, also on bursts of these bytes.
pub fn bursts_input(
    rt: &(impl Input + Print + AllocGlobal),
    form: BurstsForm,
    more: &[u32],
) -> Result<(), RunFault> {
    let mut reader = Watched::new(rt.reader());
    let mut writer = Watched::new(io::writer(rt));
    run_bursts(rt.alloc(), &mut reader, &mut writer, form, more)
}
