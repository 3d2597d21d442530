//! The command over what the program has: an input, and standard output, which is written with no buffer, so that
//! nothing is left to flush.

use crate::form::Form;
use crate::history::run_report;
use crate::history_series::run_series;
use crate::journal_report::run_journal_report;
use crate::journal_series::run_journal_series;
use crate::range::Range;
use journal_entries::EntriesEnd;
use std::io;
use text_stream::{RunFault, Source, Watched};

/// The command `report`: whether the history is legal.
pub fn report_input<R: Source>(
    rt: &(impl Print + AllocGlobal),
    reader: &mut R,
    form: Form,
    range: Range,
) -> Result<bool, RunFault> {
    let mut writer = Watched::new(io::writer(rt));
    run_report(rt.alloc(), reader, &mut writer, form, range)
}

/// The command `report` on a journal: how it ends. What is torn, and which line is bad, is told on standard error.
pub fn report_journal_input<R: Source>(
    rt: &(impl Print + Eprint + AllocGlobal),
    reader: &mut R,
    form: Form,
    range: Range,
) -> Result<EntriesEnd, RunFault> {
    let mut writer = Watched::new(io::writer(rt));
    let end = run_journal_report(rt.alloc(), reader, &mut writer, form, range)?;
    // What is illegal stands on standard output.
    if !matches!(end, EntriesEnd::Illegal(_)) {
        end.tell(rt);
    }
    Ok(end)
}

/// The command `report` on each part of a history, of so many milliseconds: whether the history is legal.
pub fn series_input<R: Source>(
    rt: &(impl Print + AllocGlobal),
    reader: &mut R,
    form: Form,
    every: u64,
) -> Result<bool, RunFault> {
    let mut writer = Watched::new(io::writer(rt));
    run_series(rt.alloc(), reader, &mut writer, form, every)
}

/// The same on a journal: how it ends. What is torn, and which line is bad, is told on standard error.
pub fn series_of_journal_input<R: Source>(
    rt: &(impl Print + Eprint + AllocGlobal),
    reader: &mut R,
    form: Form,
    every: u64,
) -> Result<EntriesEnd, RunFault> {
    let mut writer = Watched::new(io::writer(rt));
    let end = run_journal_series(rt.alloc(), reader, &mut writer, form, every)?;
    if !matches!(end, EntriesEnd::Illegal(_)) {
        end.tell(rt);
    }
    Ok(end)
}
