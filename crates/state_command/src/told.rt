//! A state, written.

ghost use Rattle.std.specs.Prelude.{◌≡◌, ◌≢◌, ◌⊎◌, IfOk, OnOk, IfErr};
ghost use Rattle.text_stream.specs.Watched.{FailsBy};
ghost use Rattle.state_command.specs.States.{ShowsState, Shows};

use crate::form::StateForm;
use crate::table::table_text;
use minislots::Checked;
use sched_history::ChannelState;
use segment_line::{Segment, segment_text};
use std::alloc::{AllocError, Global};
use text_stream::{Sink, TextFault, put};

// The text of a state in this form.
fn text_of(
    alloc: Global,
    form: StateForm,
    config: Checked,
    state: ChannelState,
) -> Result<Vec<u8>, AllocError>
    ensures { IfOk result (λ text. ShowsState form config state text.items) }
{
    match form {
        StateForm::Line => segment_text(
            alloc,
            &Segment {
                config,
                number: 2,
                state,
            },
        ),
        StateForm::Table => table_text(alloc, &state),
    }
}

/// Writes a state in this form. Nothing is written before memory runs out.
pub(crate) fn put_state<W: Sink>(
    alloc: Global,
    writer: &mut W,
    form: StateForm,
    config: Checked,
    state: ChannelState,
) -> Result<(), TextFault>
    ensures ok { OnOk result
        (Shows form config state (W.contents writer.old) (W.contents writer.new)) }
    ensures quiet { IfErr result (λ e. e ≢ TextFault.Output → writer.new ≡ writer.old) }
    ensures err { IfErr result (λ e. (e ≡ TextFault.Memory) ⊎ (e ≡ TextFault.Output)) }
    ensures failed { FailsBy TextFault.Output result
        (W.has_failed writer.old) (W.has_failed writer.new) }
{
    let text = text_of(alloc, form, config, state)?;
    put(writer, &text)
}
