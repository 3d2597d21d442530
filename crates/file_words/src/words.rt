//! The words on what is found in a file.

use super::bursts::tell_bursts;
use super::config::tell_field;
use super::counts::{tell_frame, tell_unrecorded};
use super::json_text::tell_text;
use super::load::tell_load;
use super::notes::Notes;
use super::settling::tell_settle;
use json_fields::config_in;
use json_fields::forms::Kind;
use minislots::{Checked, Config};
use serde_json::Value;
use std::alloc::{AllocError, Global};
use std::fmt::Write;
use text_stream::TextFault;

// What a good file of a kind has, with so many scripts where it is that of a storm.
fn tell_good(
    words: &mut String,
    kind: Kind,
    config: &Config,
    notes: &Notes,
    scripts: usize,
) -> Result<(), AllocError> {
    match kind {
        Kind::Script => {}
        Kind::Storm => writeln!(words, "scripts: {scripts}")?,
        Kind::History => notes.replies.tell(words, "replies")?,
    }
    notes.calls.tell(words, "calls")?;
    notes.flows.tell(words, "flows")?;
    tell_frame(words, config)?;
    match kind {
        Kind::History => Ok(()),
        Kind::Script | Kind::Storm => tell_unrecorded(words, config, notes.calls.all()),
    }
}

// The channel of a document, where its configuration is lawful.
fn channel_of(document: &Value) -> Option<Checked> {
    config_in(document)?.check().ok()
}

/// The words on bytes that are no JSON text.
pub fn words_on_text(alloc: Global, bytes: &[u8]) -> Result<String, AllocError> {
    let mut words = String::new(alloc);
    tell_text(alloc, &mut words, bytes)?;
    Ok(words)
}

/// The words on the document of a file of this kind, which bytes are the text of and in which this is found: a lawful
/// configuration and no fault, or the first fault.
pub fn words_on(
    alloc: Global,
    bytes: &[u8],
    kind: Kind,
    document: &Value,
    found: Result<Config, TextFault>,
) -> Result<String, AllocError> {
    let (mut words, mut notes) = (String::new(alloc), Notes::new(alloc));
    notes.channel = channel_of(document);
    let scripts = notes.tell_document(kind, bytes.trim_ascii())?;
    notes.faulty.put(&mut words, "with a fault")?;
    match found {
        Ok(config) => {
            tell_good(&mut words, kind, &config, &notes, scripts)?;
            tell_bursts(&mut words, &config, document)?;
            tell_settle(&mut words, &config)?;
            tell_load(alloc, &mut words, &config, document)?;
        }
        Err(TextFault::Config(field)) => tell_field(&mut words, document, field)?,
        Err(_) => {}
    }
    notes.refused.put(&mut words, "that each run refuses")?;
    notes.repeated.put(&mut words, "that stand more than once")?;
    notes.unread.put(&mut words, "that nobody reads")?;
    Ok(words)
}
