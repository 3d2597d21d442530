//! The command over what the program has: an input, and standard output, which is written with no buffer, so that
//! nothing is left to flush.

use crate::draw::draw_script;
use crate::journal::draw_journal;
use crate::recorded::draw_history;
use frame_picture::Span;
use journal_entries::EntriesEnd;
use sched_lines::tell_unrecorded;
use std::io;
use text_stream::{RunFault, Source, TextFault, Watched, read_all};

/// The command `draw`, from one frame on, counted from 0, and so many: of a script, or else of a history. A document
/// that is no script by its members or its configuration has the faults of a history.
pub fn draw_input<R: Source>(
    rt: &(impl Print + Eprint + AllocGlobal),
    reader: &mut R,
    from: u64,
    count: u64,
) -> Result<(), RunFault> {
    let span = Span { from, count };
    let text = read_all(rt.alloc(), reader)?;
    let mut writer = Watched::new(io::writer(rt));
    match draw_script(rt.alloc(), &mut text.as_slice(), span, &mut writer) {
        Ok(unrecorded) => tell_unrecorded(rt, unrecorded),
        Err(RunFault::Text(TextFault::Shape(0))) => {
            draw_history(rt.alloc(), &mut text.as_slice(), span, &mut writer)?;
        }
        Err(fault) => return Err(fault),
    }
    Ok(())
}

/// The command `draw` on a journal: how it ends, which is told on standard error where it is torn, illegal or bad.
pub fn draw_journal_input<R: Source>(
    rt: &(impl Print + Eprint + AllocGlobal),
    reader: &mut R,
    from: u64,
    count: u64,
) -> Result<EntriesEnd, RunFault> {
    let span = Span { from, count };
    let mut writer = Watched::new(io::writer(rt));
    let end = draw_journal(rt.alloc(), reader, span, &mut writer)?;
    end.tell(rt);
    Ok(end)
}
