//! The text of a history.

ghost use Rattle.std.specs.Prelude.{◌≡◌, ◌≢◌, ◌<◌, ◌^◌, ◌++◌, IfOk, OnOk, IfErr, ◌⊎◌, codes};
ghost use Rattle.std.specs.List.{AllByRecursion};
ghost use Rattle.std.specs.Io.KnownBytes.{Appends};
ghost use Rattle.json.specs.Token.{key};
ghost use Rattle.sched_calls.specs.Reply.{IsEncodable};
ghost use Rattle.history_writing.specs.Fits.{EntryFits};
ghost use Rattle.history_writing.specs.HistoryText.{entry_data, entries_data, history_data, history_text};
ghost use Rattle.history_writing.specs.Tokens.{tokens_of, numbered};
ghost use Rattle.text_stream.specs.Watched.{FailsBy};

mod call;
mod config;
mod count;
mod reply;

use call::put_call;
pub use call::put_flow;
pub(crate) use config::put_config;
pub use count::{put_count, put_name, put_offsets};
use json::Writer;
use minislots::{Config, Stamp};
use reply::put_reply;
use sched_calls::Entry;
use std::alloc::{AllocError, Global};
use text_stream::{Sink, TextFault, put};

// Writes the members of a stamp: apart from the entry, at whose end the compiler takes them for rarely written.
fn put_stamp(out: &mut Writer, stamp: Stamp) -> Result<(), AllocError>
    ensures ok { OnOk result (out.new.tokens ≡ out.old.tokens
        ++ (numbered (codes "seat") stamp.seat ++ numbered (codes "ticket") stamp.ticket)) }
    ensures before { out.new.before ≡ out.old.before }
    ensures fits { (stamp.seat < 2 ^ 32) × (stamp.ticket < 2 ^ 64) }
{
    put_count(out, "seat", stamp.seat as u64)?;
    put_count(out, "ticket", stamp.ticket)
}

/// Writes an entry: its call, its reply and its stamp. Nothing is said of which of its tokens are written where there
/// is no memory for all.
#[tactic(auto, unfolding(crate::specs::HistoryText::entry_data))]
pub(crate) fn put_entry(out: &mut Writer, entry: &Entry) -> Result<(), AllocError>
    requires { IsEncodable entry.now.reply }
    ensures ok { OnOk result (out.new.tokens ≡ out.old.tokens ++ tokens_of (entry_data entry.now)) }
    ensures before { out.new.before ≡ out.old.before }
    ensures fits { OnOk result (EntryFits entry.now) }
{
    out.begin_object()?;
    out.key("call")?;
    put_call(out, entry.call)?;
    out.key("reply")?;
    put_reply(out, &entry.reply)?;
    put_stamp(out, entry.stamp)?;
    out.end_object()
}

// Writes entries, one after the other.
#[tactic(auto, unfolding(crate::specs::HistoryText::entries_data))]
fn put_entries(out: &mut Writer, entries: &[Entry]) -> Result<(), AllocError>
    requires { AllByRecursion (λ e. IsEncodable e.reply) entries.now }
    ensures ok { OnOk result
        (out.new.tokens ≡ out.old.tokens ++ tokens_of (entries_data entries.now)) }
    ensures before { out.new.before ≡ out.old.before }
    ensures fits { OnOk result (AllByRecursion EntryFits entries.now) }
{
    out.begin_array()?;
    for entry in entries {
        put_entry(out, entry)?;
    }
    out.end_array()
}

// Writes a history under a configuration.
#[tactic(auto, unfolding(crate::specs::HistoryText::history_data))]
fn put_members(out: &mut Writer, config: &Config, entries: &[Entry]) -> Result<(), AllocError>
    requires { AllByRecursion (λ e. IsEncodable e.reply) entries.now }
    ensures ok { OnOk result (out.new.tokens
        ≡ out.old.tokens ++ tokens_of (history_data config.now entries.now)) }
    ensures before { out.new.before ≡ out.old.before }
    ensures fits { OnOk result (AllByRecursion EntryFits entries.now) }
{
    out.begin_object()?;
    out.key("config")?;
    put_config(out, config)?;
    out.key("entries")?;
    put_entries(out, entries)?;
    out.end_object()
}

/// The text of a history: JSON without spaces, keys in ascending order, and one newline.
#[tactic(auto, unfolding(crate::specs::HistoryText::history_text))]
fn history_text(alloc: Global, config: &Config, entries: &[Entry]) -> Result<Vec<u8>, AllocError>
    requires { AllByRecursion (λ e. IsEncodable e.reply) entries.now }
    ensures ok { IfOk result (λ text. text.items ≡ history_text config.now entries.now) }
    ensures fits { OnOk result (AllByRecursion EntryFits entries.now) }
{
    let mut out = Writer::new(Vec::new(alloc));
    put_members(&mut out, config, entries)?;
    let mut text = out.into_inner();
    text.push(b'\n')?;
    Ok(text)
}

/// Writes the text of a history, whose numbers fit the types of their fields. Nothing is written before memory runs
/// out.
pub fn put_history<W: Sink>(
    alloc: Global,
    writer: &mut W,
    config: &Config,
    entries: &[Entry],
) -> Result<(), TextFault>
    requires { AllByRecursion (λ e. IsEncodable e.reply) entries.now }
    ensures ok { OnOk result (Appends (W.contents writer.old) (W.contents writer.new)
        (history_text config.now entries.now)) }
    ensures fits { OnOk result (AllByRecursion EntryFits entries.now) }
    ensures quiet { IfErr result (λ e. e ≢ TextFault.Output → writer.new ≡ writer.old) }
    ensures err { IfErr result (λ e. (e ≡ TextFault.Memory) ⊎ (e ≡ TextFault.Output)) }
    ensures failed { FailsBy TextFault.Output result
        (W.has_failed writer.old) (W.has_failed writer.new) }
{
    let text = history_text(alloc, config, entries)?;
    put(writer, &text)
}
