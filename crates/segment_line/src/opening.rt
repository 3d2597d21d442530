//! The opening of a journal that goes on after nothing: its configuration.

ghost use Rattle.std.specs.Prelude.{◌≡◌, if◌then◌else◌, None};
ghost use Rattle.serde_json.specs.View.{view};
ghost use Rattle.segment_line.specs.Opening.{is_document, config_under, opening_of};

use json_fields::config_in;
use minislots::Checked;
use serde_json::Value;

// Whether a value has more than a configuration: a history, a script or a storm in one line is no opening.
fn is_document(value: &Value) -> bool
    ensures { result ≡ is_document (view value.now) }
{
    value.get("entries").is_some() || value.get("calls").is_some() || value.get("scripts").is_some()
}

/// The lawful configuration that a value has.
pub(crate) fn lawful_in(value: &Value) -> Option<Checked>
    ensures { result ≡ config_under (view value.now) }
{
    config_in(value)?.check().ok()
}

/// The configuration of a value that is an opening.
pub(crate) fn opening_of(value: &Value) -> Option<Checked>
    ensures { result ≡ opening_of (view value.now) }
{
    if is_document(value) {
        return None;
    }
    lawful_in(value)
}
