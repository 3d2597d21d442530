//! The names of faults and of kinds of documents in JSON.

ghost use Rattle.std.specs.Prelude.{◌≡◌};
ghost use Rattle.check_lines.specs.Objects.{fault_name, number_of, kind_name};

use json_fields::forms::Kind;
use text_stream::{TextFault, field_number};

/// The name of a fault.
pub(crate) fn fault_name(fault: TextFault) -> &'static str
    ensures { result.now ≡ fault_name fault }
{
    match fault {
        TextFault::Input => "input failed",
        TextFault::TooLong => "input too long",
        TextFault::NotJson => "not json",
        TextFault::Shape(_) => "bad script",
        TextFault::Config(_) => "bad config",
        TextFault::Memory => "out of memory",
        TextFault::Output => "output failed",
    }
}

/// Its number, where it has one.
pub(crate) fn number_of(fault: TextFault) -> Option<u64>
    ensures { result ≡ number_of fault }
{
    match fault {
        TextFault::Shape(number) => Some(number),
        TextFault::Config(field) => Some(u64::from(field_number(field))),
        TextFault::Input
        | TextFault::TooLong
        | TextFault::NotJson
        | TextFault::Memory
        | TextFault::Output => None,
    }
}

/// The name of a kind of document.
pub(crate) fn kind_name(kind: Kind) -> &'static str
    ensures { result.now ≡ kind_name kind }
{
    match kind {
        Kind::Script => "script",
        Kind::Storm => "storm",
        Kind::History => "history",
    }
}
