//! The command over what the program has: an input, and standard output, which is written with no buffer, so that
//! nothing is left to flush.

use crate::audit::run_audit;
use crate::form::{AuditForm, JournalForm};
use crate::journal::{JournalEnd, run_audit_journal};
use journal_entries::EntriesEnd;
use std::io;
use text_stream::{RunFault, Source, Watched};

/// The command `audit`: whether the history is legal.
pub fn audit_input<R: Source>(
    rt: &(impl Print + AllocGlobal),
    reader: &mut R,
    form: AuditForm,
) -> Result<bool, RunFault> {
    let mut writer = Watched::new(io::writer(rt));
    run_audit(rt.alloc(), reader, &mut writer, form)
}

/// The command `audit` on a journal: how it ends. What is torn, and which line is bad, is told on standard error.
pub fn audit_journal_input<R: Source>(
    rt: &(impl Print + Eprint + AllocGlobal),
    reader: &mut R,
    form: JournalForm,
) -> Result<JournalEnd, RunFault> {
    let mut writer = Watched::new(io::writer(rt));
    let end = run_audit_journal(rt.alloc(), reader, &mut writer, form)?;
    match end {
        JournalEnd::Legal(torn) => EntriesEnd::Legal(torn).tell(rt),
        // What is illegal stands on standard output.
        JournalEnd::Illegal => {}
        JournalEnd::Bad(line) => EntriesEnd::Bad(line).tell(rt),
    }
    Ok(end)
}
