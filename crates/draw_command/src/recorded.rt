//! The picture of a history.

ghost use Rattle.std.specs.Prelude.{OnOk, IfErr};
ghost use Rattle.draw_command.specs.Recorded.{DrawnHistory, StopsHistoryDrawing};
ghost use Rattle.text_stream.specs.RunFault.{TellsFailedRead, TellsFailedWrite, WritesLast};

use frame_picture::{Span, met_by_entries, put_picture};
use history_reading::read_history;
use std::alloc::Global;
use text_stream::{RunFault, Sink, Source, TextFault};

/// Reads a history, a configuration and entries in JSON, to the reader's end, and writes the picture of its frames in
/// this span in SVG, as they stand, whether it is legal or not. What begins where the plan meets an opportunity is
/// that; from the first illegal entry on there is no plan, and the words of the elements alone tell. Nothing is written
/// before another fault than one of output.
pub fn draw_history<R: Source, W: Sink>(
    alloc: Global,
    reader: &mut R,
    span: Span,
    writer: &mut W,
) -> Result<(), RunFault>
    // What was written is the picture of the history's frames in the span, and nothing else.
    ensures ok { OnOk result (DrawnHistory span (R.remaining reader.old) (R.remaining reader.new)
        (W.contents writer.old) (W.contents writer.new)) }

    // Each fault comes under its own condition, the first one in their order.
    ensures stops { IfErr result
        (StopsHistoryDrawing (R.remaining reader.old) (R.remaining reader.new)) }
    ensures quiet { WritesLast result writer.old writer.new }

    // A failed read or write is told where one has failed, and where all went well none did.
    ensures failed_read { TellsFailedRead result
        (R.has_failed reader.old) (R.has_failed reader.new) }
    ensures failed_write { TellsFailedWrite result
        (W.has_failed writer.old) (W.has_failed writer.new) }
{
    let (config, entries) = read_history(alloc, reader)?;
    let Ok(met) = met_by_entries(alloc, &config, &entries) else {
        return Err(RunFault::Text(TextFault::Memory));
    };
    put_picture(writer, &config, span, &met, &entries)?;
    Ok(())
}
