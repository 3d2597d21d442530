//! The kind of file that its first lines begin.

ghost use Rattle.std.specs.Prelude.{◌≡◌, option_map, IfOk, IfErr};
ghost use Rattle.serde_json.specs.View.{view};
ghost use Rattle.check_lines.specs.Kind.{value_in_line, has_config, has_object, kind_behind};
ghost use Rattle.check_lines.specs.Kind.{kind_of_two, kind_of_front};

use crate::document_kind::has;
use crate::lines::next_spoken;
use serde_json::Value;
use std::alloc::Global;
use text_stream::{MAX_LINE, TextFault, parse};

/// What a file is read as.
#[derive(Clone, Copy, Debug, PartialEq, Eq)]
pub(crate) enum FileKind {
    /// One value: a script, the script of a storm or a history.
    Document,
    /// A configuration, and an entry in each later line.
    Journal,
    /// A configuration, and a call in each later line.
    Live,
}

// The value that a line is the text of. None for a long line, and for one that is no JSON.
#[tactic(auto, unfolding(crate::specs::Kind::value_in_line))]
fn value_in_line(alloc: Global, line: &[u8]) -> Result<Option<Value>, TextFault>
    ensures ok { IfOk result (λ value. option_map (λ v. view v) value ≡ value_in_line line.now) }
    ensures err { IfErr result (λ e. e ≡ TextFault.Memory) }
{
    if line.len() > MAX_LINE {
        return Ok(None);
    }
    match parse(alloc, line) {
        Ok(value) => Ok(Some(value)),
        Err(TextFault::Memory) => Err(TextFault::Memory),
        Err(_) => Ok(None),
    }
}

// Whether a line is an object with the member `config`.
fn has_config(value: &Option<Value>) -> bool
    ensures { result ≡ has_config (option_map (λ v. view v) value.now) }
{
    match value {
        Some(value) => has(value, "config"),
        None => false,
    }
}

// Whether an object stands under the key `call`.
fn has_object(value: &Value) -> bool
    ensures { result ≡ has_object (view value.now) }
{
    match value.get("call") {
        Some(call) => call.is_object(),
        None => false,
    }
}

// What the line behind a configuration begins.
#[tactic(auto, unfolding(crate::specs::Kind::kind_behind))]
fn kind_behind(value: &Value) -> FileKind
    ensures { result ≡ kind_behind (view value.now) }
{
    if has(value, "reply") || has(value, "seat") || has(value, "ticket") || has_object(value) {
        FileKind::Journal
    } else if has(value, "call") {
        FileKind::Live
    } else {
        FileKind::Document
    }
}

// The kind of file of which these are the first two lines that are not blank.
#[tactic(auto, unfolding(crate::specs::Kind::kind_of_two))]
fn kind_of_two(alloc: Global, first: &[u8], second: &[u8]) -> Result<FileKind, TextFault>
    ensures ok { IfOk result (λ kind. kind ≡ kind_of_two first.now second.now) }
    ensures err { IfErr result (λ e. e ≡ TextFault.Memory) }
{
    let opening = value_in_line(alloc, first)?;
    if !has_config(&opening) {
        return Ok(FileKind::Document);
    }
    match value_in_line(alloc, second)? {
        Some(value) => Ok(kind_behind(&value)),
        None => Ok(FileKind::Document),
    }
}

/// The kind of file that its first bytes begin. It is read by lines where the first line that is not blank is an object
/// with the member `config`, and the next is an object: a journal where that has `reply`, `seat` or `ticket`, or an
/// object under `call`; the input of a conversation where it has anything else under `call`. Any other is a document.
pub(crate) fn kind_of_front(alloc: Global, bytes: &[u8]) -> Result<FileKind, TextFault>
    ensures ok { IfOk result (λ kind. kind ≡ kind_of_front bytes.now) }
    ensures err { IfErr result (λ e. e ≡ TextFault.Memory) }
{
    match next_spoken(bytes) {
        Some((first, behind)) => match next_spoken(behind) {
            Some((second, _)) => kind_of_two(alloc, first, second),
            None => Ok(FileKind::Document),
        },
        None => Ok(FileKind::Document),
    }
}
