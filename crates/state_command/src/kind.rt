//! What an input is, by its first line.

ghost use Rattle.std.specs.Prelude.{◌≡◌, IfOk};
ghost use Rattle.serde_json.specs.View.{view};
ghost use Rattle.state_command.specs.Kind.{is_document, kind_of_value, kind_of_line};

use serde_json::Value;
use std::alloc::{AllocError, Global};
use text_stream::{TextFault, parse};

/// What an input is read as.
#[derive(Clone, Copy, Debug, PartialEq, Eq)]
pub(crate) enum InputKind {
    // One value: a script or a history.
    Document,
    // A configuration, and an entry in each later line.
    Journal,
    // The same, after a state.
    Segment,
}

// Whether something stands under a key by which a document is told.
fn is_document(value: &Value) -> bool
    ensures { result ≡ is_document (view value.now) }
{
    value.get("entries").is_some() || value.get("calls").is_some() || value.get("scripts").is_some()
}

// What an input is whose first line has this value.
fn kind_of_value(value: &Value) -> InputKind
    ensures { result ≡ kind_of_value (view value.now) }
{
    if value.get("segment").is_some() {
        InputKind::Segment
    } else if value.get("config").is_some() && !is_document(value) {
        InputKind::Journal
    } else {
        InputKind::Document
    }
}

/// What an input is whose first line is this one, which a newline ends.
pub(crate) fn kind_of_line(alloc: Global, line: &[u8]) -> Result<InputKind, AllocError>
    ensures { IfOk result (λ kind. kind ≡ kind_of_line line.now) }
{
    match parse(alloc, line) {
        Ok(value) => Ok(kind_of_value(&value)),
        Err(TextFault::Memory) => Err(AllocError),
        Err(_) => Ok(InputKind::Document),
    }
}
