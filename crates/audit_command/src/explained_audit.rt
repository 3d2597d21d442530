//! Words on what is wrong in a history or a journal.

ghost use Rattle.std.specs.Prelude.{◌≤◌, length, string_bytes, IfOk};
ghost use Rattle.sched_calls.specs.declared.reply.TheConstants.{MAX_ENTRIES};
ghost use Rattle.audit_command.specs.JournalAudit.{IsQuietJournal};
ghost use Rattle.audit_command.specs.Verdict.{IsVerdict, IsQuiet};

mod words;

use crate::audit::Verdict;
use crate::form::{AuditForm, JournalForm};
use history_reading::entry_in;
use journal_entries::JournalEntries;
use minislots::Checked;
use sched_history::{Entry, MAX_WHOLE_HISTORY, lawful_reply};
use std::alloc::{AllocError, Global};
use words::words_on;

// The words behind the line of a verdict: on the first entry that is not lawful where they are asked for, or none.
pub(crate) fn explain(
    alloc: Global,
    config: &Checked,
    entries: &[Entry],
    verdict: Verdict,
    form: AuditForm,
) -> Result<String, AllocError>
    requires few { length entries.now ≤ MAX_ENTRIES }
    requires judged { IsVerdict config.now entries.now verdict }
    ensures { IfOk result (λ words. IsQuiet form verdict (string_bytes words)) }
{
    match (form, verdict) {
        (AuditForm::Explained, Verdict::Illegal(index)) => {
            let entry = &entries[index];
            let lawful = lawful_reply(alloc, config, &entries[..index], entry.call)?;
            words_on(alloc, index as u64, entry, &lawful)
        }
        _ => Ok(String::new(alloc)),
    }
}

// Words on the entry at this place of a journal, whose line was read last: it may not follow those that were taken.
fn words_on_last(alloc: Global, index: u64, entries: JournalEntries) -> Result<String, AllocError> {
    let Some(line) = entries.line() else {
        return Ok(String::new(alloc));
    };
    let Some(entry) = entry_in(alloc, line)? else {
        return Ok(String::new(alloc));
    };
    if entries.auditor.taken() >= MAX_WHOLE_HISTORY {
        return Ok(String::new(alloc));
    }
    let lawful = entries.auditor.reply_to(entry.call)?;
    words_on(alloc, index, &entry, &lawful)
}

// The words behind the line of a verdict on a journal that is not legal, where they are asked for.
pub(crate) fn explain_last(
    alloc: Global,
    form: JournalForm,
    index: u64,
    entries: JournalEntries,
) -> Result<String, AllocError>
    ensures { IfOk result (λ words. IsQuietJournal form (string_bytes words)) }
{
    match form {
        JournalForm::Explained => words_on_last(alloc, index, entries),
        JournalForm::Line | JournalForm::Json => Ok(String::new(alloc)),
    }
}
