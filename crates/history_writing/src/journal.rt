//! The text of a journal: the line of its configuration, and one line for each entry.

ghost use Rattle.std.specs.Prelude.{◌≡◌, ◌≢◌, ◌++◌, ℕ, List, IfOk, OnOk, OnErr, IfErr, ◌⊎◌};
ghost use Rattle.std.specs.List.{AllByRecursion};
ghost use Rattle.std.specs.Io.KnownBytes.{Appends};
ghost use Rattle.serde_json.specs.Written.{compact_text};
ghost use Rattle.sched_calls.specs.Reply.{IsEncodable};
ghost use Rattle.history_writing.specs.Fits.{EntryFits};
ghost use Rattle.history_writing.specs.HistoryText.{entry_data};
ghost use Rattle.history_writing.specs.Tokens.{tokens_of};
ghost use Rattle.history_writing.specs.Journal.{opening_data, opening_line, entry_line, journal_text};
ghost use Rattle.text_stream.specs.Watched.{FailsBy};

use crate::history::{put_config, put_entry};
use json::Writer;
use minislots::Config;
use sched_calls::Entry;
use std::alloc::{AllocError, Global};
use std::mem;
use text_stream::{Sink, TextFault, put};

// Writes the opening: an object with the configuration.
#[tactic(auto, unfolding(crate::specs::Journal::opening_data))]
fn put_opening(out: &mut Writer, config: &Config) -> Result<(), AllocError>
    ensures ok { OnOk result
        (out.new.tokens ≡ out.old.tokens ++ tokens_of (opening_data config.now)) }
    ensures before { out.new.before ≡ out.old.before }
{
    out.begin_object()?;
    out.key("config")?;
    put_config(out, config)?;
    out.end_object()
}

/// The first line of a journal: an object with the configuration, in JSON without spaces, and a newline.
#[tactic(auto, unfolding(crate::specs::Journal::opening_line))]
pub fn opening_text(alloc: Global, config: &Config) -> Result<Vec<u8>, AllocError>
    ensures { IfOk result (λ text. text.items ≡ opening_line config.now) }
{
    let mut out = Writer::new(Vec::new(alloc));
    put_opening(&mut out, config)?;
    let mut text = out.into_inner();
    text.push(b'\n')?;
    Ok(text)
}

// Puts an entry behind a text, without a newline: a part of it where memory runs out.
fn put_object(alloc: Global, text: &mut Vec<u8>, entry: &Entry) -> Result<(), AllocError>
    requires { IsEncodable entry.now.reply }
    ensures ok { OnOk result
        (text.new.items ≡ text.old.items ++ compact_text (entry_data entry.now)) }
    ensures part { (part : List ℕ) × (text.new.items ≡ text.old.items ++ part) }
    ensures fits { OnOk result (EntryFits entry.now) }
{
    let mut out = Writer::new(mem::replace(text, Vec::new(alloc)));
    let written = put_entry(&mut out, entry);
    *text = out.into_inner();
    written
}

// Puts the line of an entry behind a text: a part of it where memory runs out.
#[tactic(auto, unfolding(crate::specs::Journal::entry_line))]
fn put_line(alloc: Global, text: &mut Vec<u8>, entry: &Entry) -> Result<(), AllocError>
    requires { IsEncodable entry.now.reply }
    ensures ok { OnOk result (text.new.items ≡ text.old.items ++ entry_line entry.now) }
    ensures part { (part : List ℕ) × (text.new.items ≡ text.old.items ++ part) }
    ensures fits { OnOk result (EntryFits entry.now) }
{
    put_object(alloc, text, entry)?;
    text.push(b'\n')?;
    Ok(())
}

/// Puts the line of an entry behind a text: the entry as it stands in the document of a history, and a newline. Where
/// memory runs out the text is as it was.
pub fn add_entry(alloc: Global, text: &mut Vec<u8>, entry: &Entry) -> Result<(), AllocError>
    requires { IsEncodable entry.now.reply }
    ensures ok { OnOk result (text.new.items ≡ text.old.items ++ entry_line entry.now) }
    ensures err { OnErr result (text.new.items ≡ text.old.items) }
    ensures fits { OnOk result (EntryFits entry.now) }
{
    let len = text.len();
    let added = put_line(alloc, text, entry);
    if added.is_err() {
        text.truncate(len);
    }
    added
}

// Puts the line of an entry behind a text. The line is made apart: a writer clears room ahead, the more the
// longer its text is.
fn extend_by_line(
    alloc: Global,
    text: &mut Vec<u8>,
    line: &mut Vec<u8>,
    entry: &Entry,
) -> Result<(), AllocError>
    requires { IsEncodable entry.now.reply }
    ensures ok { OnOk result (text.new.items ≡ text.old.items ++ entry_line entry.now) }
    ensures fits { OnOk result (EntryFits entry.now) }
{
    line.clear();
    add_entry(alloc, line, entry)?;
    text.extend_from_slice(line)
}

// The text of a journal.
fn journal_text(alloc: Global, config: &Config, entries: &[Entry]) -> Result<Vec<u8>, AllocError>
    requires { AllByRecursion (λ e. IsEncodable e.reply) entries.now }
    ensures ok { IfOk result (λ text. text.items ≡ journal_text config.now entries.now) }
    ensures fits { OnOk result (AllByRecursion EntryFits entries.now) }
{
    let mut text = opening_text(alloc, config)?;
    let mut line = Vec::new(alloc);
    for entry in entries {
        extend_by_line(alloc, &mut text, &mut line, entry)?;
    }
    Ok(text)
}

/// Writes the text of a journal, whose numbers fit the types of their fields. Nothing is written before memory runs
/// out.
pub fn put_journal<W: Sink>(
    alloc: Global,
    writer: &mut W,
    config: &Config,
    entries: &[Entry],
) -> Result<(), TextFault>
    requires { AllByRecursion (λ e. IsEncodable e.reply) entries.now }
    ensures ok { OnOk result (Appends (W.contents writer.old) (W.contents writer.new)
        (journal_text config.now entries.now)) }
    ensures fits { OnOk result (AllByRecursion EntryFits entries.now) }
    ensures quiet { IfErr result (λ e. e ≢ TextFault.Output → writer.new ≡ writer.old) }
    ensures err { IfErr result (λ e. (e ≡ TextFault.Memory) ⊎ (e ≡ TextFault.Output)) }
    ensures failed { FailsBy TextFault.Output result
        (W.has_failed writer.old) (W.has_failed writer.new) }
{
    let text = journal_text(alloc, config, entries)?;
    put(writer, &text)
}
