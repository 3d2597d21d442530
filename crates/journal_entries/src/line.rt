//! What one line of a journal stands for, and what an auditor says of it.

ghost use Rattle.std.specs.Prelude.{◌≡◌, ◌≤◌, if◌then◌else◌, None, length, IfOk, IfErr};
ghost use Rattle.serde_json.specs.View.{view};
ghost use Rattle.text_stream.specs.declared.TheConstants.{MAX_LINE};
ghost use Rattle.journal_entries.specs.Standing.{is_document, config_under, opening_in, config_in_line};
ghost use Rattle.journal_entries.specs.Taking.{Takes, StopsTaking};

use history_reading::entry_in;
use json_fields::config_in;
use minislots::Checked;
use sched_history::{Auditor, Entry, JudgeFault};
use serde_json::Value;
use std::alloc::{AllocError, Global};
use text_stream::{TextFault, parse};

// Whether a value has more than a configuration: a history, a script or a storm in one line is no opening.
fn is_document(value: &Value) -> bool
    ensures { result ≡ is_document (view value.now) }
{
    value.get("entries").is_some() || value.get("calls").is_some() || value.get("scripts").is_some()
}

// The configuration of an opening, where it is lawful.
fn lawful_in(value: &Value) -> Option<Checked>
    ensures { result ≡ config_under (view value.now) }
{
    config_in(value)?.check().ok()
}

// The configuration of a value that is an opening.
fn opening_of(value: &Value) -> Option<Checked>
    ensures { result ≡ if is_document (view value.now) then None
        else config_under (view value.now) }
{
    if is_document(value) {
        return None;
    }
    lawful_in(value)
}

// The configuration that a first line stands for.
#[tactic(auto, unfolding(crate::specs::Standing::opening_in))]
pub(crate) fn opening_in(alloc: Global, line: &[u8]) -> Result<Option<Checked>, AllocError>
    ensures { IfOk result (λ config. config ≡ opening_in line.now) }
{
    match parse(alloc, line) {
        Ok(value) => Ok(opening_of(&value)),
        Err(TextFault::Memory) => Err(AllocError),
        Err(_) => Ok(None),
    }
}

// What comes of a line behind the first.
#[derive(Drop)]
pub(crate) enum Taken {
    // It is this entry, which was taken.
    Entry(Entry),
    // It is an entry that may not follow those before it.
    Illegal,
    // It is no entry.
    NoEntry,
}

// Judges the entry that a line stands for, and takes it where it may follow.
pub(crate) fn take_line(
    alloc: Global,
    auditor: &mut Auditor,
    line: &[u8],
) -> Result<Taken, TextFault>
    requires { length line.now ≤ MAX_LINE }
    ensures takes { IfOk result (Takes auditor.old auditor.new line.now) }
    ensures stops { IfErr result (StopsTaking auditor.old line.now) }
{
    let Some(entry) = entry_in(alloc, line)? else {
        return Ok(Taken::NoEntry);
    };
    match auditor.judge(&entry) {
        Ok(()) => Ok(Taken::Entry(entry)),
        Err(JudgeFault::Illegal) => Ok(Taken::Illegal),
        Err(JudgeFault::Full) => Err(TextFault::TooLong),
        Err(JudgeFault::Memory) => Err(TextFault::Memory),
    }
}
