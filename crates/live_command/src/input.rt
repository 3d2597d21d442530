//! The command over what the program has: standard input and standard output, which is written with no buffer, so that
//! nothing is left to flush.

use crate::fault::LiveFault;
use crate::journal::NoJournal;
use crate::live::hold;
use crate::wording::Wording;
use std::io;
use text_stream::Watched;

/// The command `live` without a journal.
pub fn live_input(
    rt: &(impl Input + Print + AllocGlobal),
    wording: Wording,
) -> Result<(), LiveFault> {
    hold(
        rt.alloc(),
        &mut Watched::new(rt.reader()),
        &mut Watched::new(io::writer(rt)),
        &mut NoJournal,
        wording,
    )
}
