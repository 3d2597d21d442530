//! The places in which calls are read from their bytes.

ghost use Rattle.std.specs.Prelude.{◌≡◌, Some, Ok, IfOk};
ghost use Rattle.serde_json.specs.Data.{Data};
ghost use Rattle.text_stream.specs.Input.{value_of};
ghost use Rattle.call_reading.specs.Calls.{call_of, StandsAlone};

use super::quick_call::read_quick_call;
use super::usual::{FromTokens, read_single};
use byte_tokens::Quick;
use json_fields::Stop;
use sched_calls::Call;
use std::alloc::Global;

/// A script, in which calls stand.
pub struct InScript;

impl FromTokens<InScript> for Call {
    ghost stands_for = { λ d call. call_of d ≡ Some call };

    fn read(alloc: Global, reader: &mut Quick<'_>, depth: usize) -> Result<Call, Stop> {
        read_quick_call(alloc, reader, depth)
    }
}

// A line, in which one call stands and no configuration.
struct Alone;

impl FromTokens<Alone> for Call {
    ghost stands_for = { StandsAlone };

    fn read(alloc: Global, reader: &mut Quick<'_>, depth: usize) -> Result<Call, Stop> {
        read_quick_call(alloc, reader, depth)
    }
}

/// The call that a text is in its usual form, with no escape. It has no member that no call has, so none is a
/// configuration. Any other text is not read.
pub fn read_quick_line(alloc: Global, bytes: &[u8]) -> Result<Call, Stop>
    ensures { IfOk result (λ call. (d : Data) × (value_of bytes.now ≡ Ok d) × StandsAlone d call) }
{
    read_single::<Alone, Call>(alloc, bytes)
}
