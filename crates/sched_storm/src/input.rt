//! The command over what the program has: threads, an input, and standard output, which is written with no buffer, so
//! that nothing is left to flush.

use crate::gate::Open;
use crate::run::run_storm;
use std::io;
use std::sync::Wait;
use std::thread::Threads;
use text_stream::{RunFault, Source, Watched};

/// The command `storm`: whether no worker was held, and the history is legal.
pub fn storm_input<R: Print + AllocGlobal + Threads + Wait + Sync, S: Source>(
    rt: &R,
    reader: &mut S,
) -> Result<bool, RunFault> {
    let mut writer = Watched::new(io::writer(rt));
    run_storm(rt, rt.alloc(), reader, &mut writer, &Open)
}
