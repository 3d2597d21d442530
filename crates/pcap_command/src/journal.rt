//! The capture of a journal's MAPs, entry by entry.

ghost use Rattle.std.specs.Prelude.{◌≡◌, [], List, ℕ, Option, IfOk, IfErr};
ghost use Rattle.std.specs.Io.KnownBytes.{append_known};
ghost use Rattle.text_stream.specs.Watched.{FailsBy};
ghost use Rattle.text_stream.specs.Writing.{Puts};
ghost use Rattle.sched_calls.specs.Reply.{IsEncodable};
ghost use Rattle.text_stream.specs.RunFault.{TellsFailedRead, TellsFailedWrite};
ghost use Rattle.journal_entries.specs.Next.{HasGiven};
ghost use Rattle.journal_entries.specs.End.{StopsCommand};
ghost use Rattle.pcap_command.specs.Journal.{Captured, CapturedEntries, PutsEntries, StopsEntries, entry_item};

use crate::buffer::WireBuffer;
use crate::packet::capture_head;
use crate::run::put_packet_of;
use journal_entries::{EntriesEnd, JournalEntries, Next};
use minislots::Checked;
use sched_history::{Entry, MAX_WHOLE_HISTORY};
use std::alloc::Global;
use text_stream::{RunFault, Sink, Source, TextFault};

// Puts the packet of an entry's MAP behind what waits, and nothing where it has none.
fn put_entry<W: Sink>(
    buffer: &mut WireBuffer,
    writer: &mut W,
    config: &Checked,
    address: &[u8; 6],
    entry: Entry,
) -> Result<(), TextFault>
    requires { IsEncodable entry.reply }
    ensures { Puts W.contents W.has_failed writer.old writer.new buffer.old buffer.new
        (entry_item config.now address.now entry) result }
{
    let Entry { reply, .. } = entry;
    put_packet_of(buffer, writer, config, address, &Ok(reply))
}

// Puts the packets of a journal's entries behind what waits, up to what ends it.
fn put_entries<R: Source, W: Sink>(
    entries: &mut JournalEntries,
    config: &Checked,
    reader: &mut R,
    buffer: &mut WireBuffer,
    writer: &mut W,
    address: &[u8; 6],
) -> Result<EntriesEnd, TextFault>
    requires same { config.now ≡ entries.old.auditor.config }
    requires none { entries.old.auditor.history ≡ [] }

    ensures puts { IfOk result (λ end. (before : Option (List ℕ)) →
        HasGiven before (R.remaining reader.old) entries.old →
        PutsEntries address.now before (R.remaining reader.new) config.now
        (append_known (W.contents writer.old) buffer.old)
        (append_known (W.contents writer.new) buffer.new) end) }
    ensures stops { IfErr result (λ fault. (before : Option (List ℕ)) →
        HasGiven before (R.remaining reader.old) entries.old →
        StopsEntries before (R.remaining reader.new) fault) }
    ensures failed_read { FailsBy TextFault.Input result
        (R.has_failed reader.old) (R.has_failed reader.new) }
    ensures failed_write { (before : Option (List ℕ)) →
        HasGiven before (R.remaining reader.old) entries.old →
        FailsBy TextFault.Output result (W.has_failed writer.old) (W.has_failed writer.new) }
{
    for _ in 0..=MAX_WHOLE_HISTORY {
        match entries.next(reader) {
            Ok(Next::Entry(entry)) => put_entry(buffer, writer, config, address, entry)?,
            Ok(Next::Illegal(place)) => return Ok(EntriesEnd::Illegal(place)),
            Ok(Next::Bad(line)) => return Ok(EntriesEnd::Bad(line)),
            Ok(Next::End(torn)) => return Ok(EntriesEnd::Legal(torn)),
            Err(fault) => return Err(fault),
        }
    }
    // Fewer entries are given than there were turns.
    let _most = entries.auditor.taken();
    Err(TextFault::TooLong)
}

// Writes the capture of the entries that come.
fn capture_entries<R: Source, W: Sink>(
    mut entries: JournalEntries,
    config: &Checked,
    reader: &mut R,
    writer: &mut W,
    address: &[u8; 6],
) -> Result<EntriesEnd, TextFault>
    requires same { config.now ≡ entries.auditor.config }
    requires none { entries.auditor.history ≡ [] }

    ensures captures { IfOk result (λ end. (before : Option (List ℕ)) →
        HasGiven before (R.remaining reader.old) entries →
        CapturedEntries address.now before (R.remaining reader.new)
        (W.contents writer.old) (W.contents writer.new) end) }
    ensures stops { IfErr result (λ fault. (before : Option (List ℕ)) →
        HasGiven before (R.remaining reader.old) entries →
        StopsEntries before (R.remaining reader.new) fault) }
    ensures failed_read { FailsBy TextFault.Input result
        (R.has_failed reader.old) (R.has_failed reader.new) }
    ensures failed_write { (before : Option (List ℕ)) →
        HasGiven before (R.remaining reader.old) entries →
        FailsBy TextFault.Output result (W.has_failed writer.old) (W.has_failed writer.new) }
{
    let mut buffer = WireBuffer::new();
    buffer.put_head(writer, &capture_head())?;
    let end = match put_entries(&mut entries, config, reader, &mut buffer, writer, address) {
        Ok(end) => end,
        Err(fault) => return Err(fault),
    };
    buffer.write_out(writer)?;
    Ok(end)
}

/// Reads a journal, of any length, in the memory of one line and of an auditor, and writes the capture of its MAPs from
/// this address, each at the time at which its frame starts, much at a time. An entry that may not follow those before
/// it ends the capture, and so does a line that stands for nothing: what stands before is written. Where the first line
/// is no lawful configuration nothing is.
pub fn capture_journal<R: Source, W: Sink>(
    alloc: Global,
    reader: &mut R,
    writer: &mut W,
    address: &[u8; 6],
) -> Result<EntriesEnd, RunFault>
    // What was written is the capture of the MAPs of all entries that may stand before the end, and nothing else.
    ensures ok { IfOk result (Captured address.now (R.remaining reader.old) (R.remaining reader.new)
        (W.contents writer.old) (W.contents writer.new)) }

    // Each fault comes under its own condition.
    ensures stops { IfErr result (StopsCommand (R.remaining reader.old) (R.remaining reader.new)) }

    // A failed read or write is told where one has failed, and where all went well none did.
    ensures failed_read { TellsFailedRead result
        (R.has_failed reader.old) (R.has_failed reader.new) }
    ensures failed_write { TellsFailedWrite result
        (W.has_failed writer.old) (W.has_failed writer.new) }
{
    match JournalEntries::open(alloc, reader) {
        Ok(Some((config, entries))) => {
            match capture_entries(entries, &config, reader, writer, address) {
                Ok(end) => Ok(end),
                Err(fault) => Err(RunFault::Text(fault)),
            }
        }
        Ok(None) => Ok(EntriesEnd::Bad(0)),
        Err(fault) => Err(RunFault::Text(fault)),
    }
}
