//! The command, from the text of a document to what is written of its channel.

ghost use Rattle.std.specs.Prelude.{◌≡◌, ◌++◌, IfOk, OnOk, IfErr};
ghost use Rattle.text_stream.specs.RunFault.{TellsFailedRead, TellsFailedWrite, WritesLast};
ghost use Rattle.bursts_command.specs.Command.{usual_sizes, text_in, TellsBursts, StopsBursts};

use crate::channel::{Channel, read_channel};
use crate::json::push_json;
use crate::table::push_table;
use std::alloc::{AllocError, Global};
use text_stream::{RunFault, Sink, Source, TextFault, put};

/// The bytes of bursts that are always told.
const USUAL_SIZES: [u32; 6] = [64, 128, 256, 512, 1024, 1522];

/// How the bursts of a channel are written.
#[derive(Clone, Copy, Debug, PartialEq, Eq)]
pub enum BurstsForm {
    /// As tables.
    Table,
    /// In one line of JSON.
    Json,
}

// The usual sizes, and these behind them.
fn sizes_of(alloc: Global, more: &[u32]) -> Result<Vec<u32>, AllocError>
    ensures { IfOk result (λ sizes. sizes.items ≡ usual_sizes ++ more.now) }
{
    let mut sizes = Vec::from_slice(alloc, &USUAL_SIZES)?;
    sizes.extend_from_slice(more)?;
    Ok(sizes)
}

// The text in this form on a channel's bursts of these sizes.
fn text_in(
    alloc: Global,
    form: BurstsForm,
    channel: &Channel,
    sizes: &[u32],
) -> Result<Vec<u8>, AllocError>
    ensures { IfOk result (λ text. text.items ≡ text_in form channel.now sizes.now) }
{
    let mut words = Vec::new(alloc);
    match form {
        BurstsForm::Table => push_table(&mut words, channel, sizes)?,
        BurstsForm::Json => push_json(&mut words, channel, sizes)?,
    }
    Ok(words)
}

// The text in this form on a channel's bursts of the usual sizes and of these more.
fn bursts_text(
    alloc: Global,
    form: BurstsForm,
    channel: &Channel,
    more: &[u32],
) -> Result<Vec<u8>, AllocError>
    ensures { IfOk result
        (λ text. text.items ≡ text_in form channel.now (usual_sizes ++ more.now)) }
{
    let sizes = sizes_of(alloc, more)?;
    text_in(alloc, form, channel, &sizes)
}

/// Reads a document to the reader's end, of which the configuration under `config` alone is looked at, and writes in
/// this form what bursts of its channel take: of 64, 128, 256, 512, 1024 and 1522 bytes, and of these more; and the
/// most bytes of data grants of each number of minislots up to a frame. Nothing is written before another fault than
/// one of output.
pub fn run_bursts<R: Source, W: Sink>(
    alloc: Global,
    reader: &mut R,
    writer: &mut W,
    form: BurstsForm,
    more: &[u32],
) -> Result<(), RunFault>
    // What was written is the text on the channel that was read, and nothing else.
    ensures ok { OnOk result (TellsBursts form more.now (R.remaining reader.old)
        (R.remaining reader.new) (W.contents writer.old) (W.contents writer.new)) }

    // Each fault comes under its own condition, the first one in their order.
    ensures stops { IfErr result (StopsBursts (R.remaining reader.old) (R.remaining reader.new)) }
    ensures quiet { WritesLast result writer.old writer.new }

    // A failed read or write is told where one has failed, and where all went well none did.
    ensures failed_read { TellsFailedRead result
        (R.has_failed reader.old) (R.has_failed reader.new) }
    ensures failed_write { TellsFailedWrite result
        (W.has_failed writer.old) (W.has_failed writer.new) }
{
    let channel = read_channel(alloc, reader)?;
    let Ok(text) = bursts_text(alloc, form, &channel, more) else {
        return Err(RunFault::Text(TextFault::Memory));
    };
    put(writer, &text)?;
    Ok(())
}
