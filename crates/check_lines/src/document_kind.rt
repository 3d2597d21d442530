//! The kind of file that a document seems to be.

ghost use Rattle.std.specs.Prelude.{◌≡◌};
ghost use Rattle.serde_json.specs.View.{view};
ghost use Rattle.history_reading.specs.Replies.{has};
ghost use Rattle.check_lines.specs.DocumentKind.{kind_in};

use json_fields::forms::Kind;
use serde_json::Value;

/// Whether something stands under this key.
pub(crate) fn has(value: &Value, key: &str) -> bool
    ensures { result ≡ has key.now (view value.now) }
{
    value.get(key).is_some()
}

/// The kind of file that a document seems to be, by its members: one with `calls` is a script, else one with `scripts`
/// that of a storm, else one with `entries` a history. What has none of them is taken for a script.
pub fn kind_in(value: &Value) -> Kind
    ensures { result ≡ kind_in (view value.now) }
{
    if has(value, "calls") {
        Kind::Script
    } else if has(value, "scripts") {
        Kind::Storm
    } else if has(value, "entries") {
        Kind::History
    } else {
        Kind::Script
    }
}
