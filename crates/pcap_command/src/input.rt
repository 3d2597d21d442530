//! The commands over what the program has: an input, and standard output, which is written with no buffer, so that
//! nothing is left to flush.

use crate::journal::capture_journal;
use crate::output::WireOutput;
use crate::run::run_on_wire;
use journal_entries::EntriesEnd;
use sched_lines::tell_unrecorded;
use std::io;
use text_stream::{RunFault, Source, Watched};

// A run on the channel from an address; how many calls were not recorded.
fn run_from<R: Source>(
    rt: &(impl Print + AllocGlobal),
    reader: &mut R,
    address: &[u8; 6],
    output: WireOutput,
) -> Result<usize, RunFault> {
    let mut writer = Watched::new(io::writer(rt));
    run_on_wire(rt.alloc(), reader, &mut writer, address, output)
}

/// The command `run` with whole frames.
pub fn frames_input<R: Source>(
    rt: &(impl Print + AllocGlobal),
    reader: &mut R,
    address: &[u8; 6],
) -> Result<(), RunFault> {
    run_from(rt, reader, address, WireOutput::Lines)?;
    Ok(())
}

/// The command `pcap`. A capture does not tell of calls that were not recorded, so how many they are is told on
/// standard error.
pub fn pcap_input<R: Source>(
    rt: &(impl Print + Eprint + AllocGlobal),
    reader: &mut R,
    address: &[u8; 6],
) -> Result<(), RunFault> {
    let unrecorded = run_from(rt, reader, address, WireOutput::Capture)?;
    tell_unrecorded(rt, unrecorded);
    Ok(())
}

/// The command `pcap` on a journal: how it ends, which is told on standard error where it is torn, illegal or bad.
pub fn pcap_journal_input<R: Source>(
    rt: &(impl Print + Eprint + AllocGlobal),
    reader: &mut R,
    address: &[u8; 6],
) -> Result<EntriesEnd, RunFault> {
    let mut writer = Watched::new(io::writer(rt));
    let end = capture_journal(rt.alloc(), reader, &mut writer, address)?;
    end.tell(rt);
    Ok(end)
}
