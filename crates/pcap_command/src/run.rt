//! A run of a script, and what it puts on the channel.

ghost use Rattle.std.specs.Prelude.{◌≡◌, ◌≢◌, [], IfOk, IfErr};
ghost use Rattle.sched_calls.specs.Reply.{HasLine};
ghost use Rattle.text_stream.specs.Watched.{FailsBy};
ghost use Rattle.text_stream.specs.Writing.{Puts};
ghost use Rattle.text_stream.specs.RunFault.{TellsFailedRead, TellsFailedWrite, WritesLast};
ghost use Rattle.script_reading.specs.Stops.{Stops};
ghost use Rattle.pcap_command.specs.Items.{head_of, item_of};
ghost use Rattle.pcap_command.specs.Ran.{PutsOnWire, RanOnWire};

use crate::buffer::WireBuffer;
use crate::output::WireOutput;
use crate::packet::capture_head;
use minislots::Checked;
use sched_history::{Call, Reply, Scheduler, Unrecorded, count_unrecorded, make_call};
use sched_lines::map_in;
use script_reading::read_script;
use std::alloc::Global;
use text_stream::{RunFault, Sink, Source, TextFault};

// Puts what stands before all answers behind what waits: the head of a capture, or nothing.
fn put_head<W: Sink>(
    buffer: &mut WireBuffer,
    writer: &mut W,
    output: WireOutput,
) -> Result<(), TextFault>
    ensures { Puts W.contents W.has_failed writer.old writer.new buffer.old buffer.new
        (head_of output) result }
{
    match output {
        WireOutput::Lines => buffer.put_head(writer, b""),
        WireOutput::Capture => buffer.put_head(writer, &capture_head()),
    }
}

// Puts the packet of an answer that is a MAP behind what waits, and nothing for another.
pub(crate) fn put_packet_of<W: Sink>(
    buffer: &mut WireBuffer,
    writer: &mut W,
    config: &Checked,
    address: &[u8; 6],
    answer: &Result<Reply, Unrecorded>,
) -> Result<(), TextFault>
    requires { HasLine answer.now }
    ensures { Puts W.contents W.has_failed writer.old writer.new buffer.old buffer.new
        (item_of WireOutput.Capture config.now address.now answer.now) result }
{
    match map_in(answer) {
        Some(map) => buffer.put_packet(writer, config, address, map),
        None => buffer.put_head(writer, b""),
    }
}

// Puts what is written of an answer behind what waits.
fn put_answer<W: Sink>(
    buffer: &mut WireBuffer,
    writer: &mut W,
    config: &Checked,
    address: &[u8; 6],
    answer: &Result<Reply, Unrecorded>,
    output: WireOutput,
) -> Result<(), TextFault>
    requires { HasLine answer.now }
    ensures { Puts W.contents W.has_failed writer.old writer.new buffer.old buffer.new
        (item_of output config.now address.now answer.now) result }
{
    match output {
        WireOutput::Lines => buffer.put_line(writer, address, answer),
        WireOutput::Capture => put_packet_of(buffer, writer, config, address, answer),
    }
}

// Makes the calls of a script one after the other, and writes what they put on the channel, much at a time. Answers how
// many calls were not recorded.
fn run_calls<W: Sink>(
    scheduler: &mut Scheduler,
    config: &Checked,
    calls: &[Call],
    writer: &mut W,
    address: &[u8; 6],
    output: WireOutput,
) -> Result<usize, TextFault>
    requires empty { scheduler.old.history ≡ [] }
    requires whole { scheduler.old.handed ≡ 0 }
    requires same { config.now ≡ scheduler.old.config }

    ensures ok { IfOk result (PutsOnWire output address.now scheduler.old.config calls.now
        (W.contents writer.old) (W.contents writer.new)) }
    ensures err { IfErr result (λ e. e ≡ TextFault.Output) }
    ensures failed { FailsBy TextFault.Output result
        (W.has_failed writer.old) (W.has_failed writer.new) }
{
    let mut buffer = WireBuffer::new();
    put_head(&mut buffer, writer, output)?;
    for (place, call) in calls.iter().enumerate() {
        let answer = make_call(scheduler, place, *call);
        put_answer(&mut buffer, writer, config, address, &answer, output)?;
    }
    buffer.write_out(writer)?;
    Ok(count_unrecorded(scheduler, calls))
}

/// Reads a script, a configuration and calls in JSON, to the reader's end, and makes its calls one after the other on a
/// new scheduler, as [`run_with`](run_command::run_with) does. Writes what they put on the channel, with the frames of
/// MAPs from this address: one line for the answer to each call, or a capture of the MAPs, each at the time at which
/// its frame starts. Answers how many calls were not recorded.
pub fn run_on_wire<R: Source, W: Sink>(
    alloc: Global,
    reader: &mut R,
    writer: &mut W,
    address: &[u8; 6],
    output: WireOutput,
) -> Result<usize, RunFault>
    // What was written is the lines of the answers, or the capture of their MAPs, and nothing else; and so many calls
    // were not recorded.
    ensures ok { IfOk result (RanOnWire output address.now
        (R.remaining reader.old) (R.remaining reader.new)
        (W.contents writer.old) (W.contents writer.new)) }

    // Each fault comes under its own condition, the first one in their order.
    ensures stops { IfErr result (Stops (R.remaining reader.old) (R.remaining reader.new)) }
    ensures quiet { WritesLast result writer.old writer.new }

    // A failed read or write is told where one has failed, and where all went well none did.
    ensures failed_read { TellsFailedRead result
        (R.has_failed reader.old) (R.has_failed reader.new) }
    ensures failed_write { TellsFailedWrite result
        (W.has_failed writer.old) (W.has_failed writer.new) }
{
    let (config, calls) = read_script(alloc, reader)?;
    let Ok(mut scheduler) = Scheduler::open(alloc, config) else {
        return Err(RunFault::Text(TextFault::Memory));
    };
    let unrecorded = run_calls(&mut scheduler, &config, &calls, writer, address, output)?;
    Ok(unrecorded)
}
