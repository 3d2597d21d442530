//! What an input is, told by its first bytes to whoever gave it to a command that reads another kind.

ghost use Rattle.std.specs.Prelude.{◌≡◌, IfOk, IfErr};
ghost use Rattle.serde_json.specs.View.{view};
ghost use Rattle.text_stream.specs.Input.{value_of};
ghost use Rattle.check_lines.specs.InputKind.{kind_told, document_told, input_kind};
ghost use Rattle.check_lines.specs.InputKind.{is_read, advice_on_script, command_for, advice_on_journal};
ghost use Rattle.check_lines.specs.InputKind.{advice_on_read, advice_on};

use crate::document_kind::{has, kind_in};
use crate::kind::{FileKind, kind_of_front};
use json_fields::forms::Kind;
use serde_json::Value;
use std::alloc::{AllocError, Global};
use text_stream::{TextFault, parse};

/// What an input is.
#[derive(Clone, Copy)]
pub enum InputKind {
    /// A document of this kind.
    Document(Kind),
    /// A journal.
    Journal,
    /// The input of a conversation.
    Live,
}

/// The documents that a command reads.
#[derive(Clone, Copy)]
pub enum Documents {
    /// Scripts.
    Scripts,
    /// Scripts of a storm.
    Storms,
    /// Histories.
    Histories,
    /// Scripts and histories.
    Both,
}

/// Whether a command reads a journal.
#[derive(Clone, Copy)]
pub enum Journals {
    /// It never does.
    Never,
    /// It would where that is asked for.
    Unasked,
    /// It does, and no document.
    Asked,
}

/// What a command reads.
#[derive(Clone, Copy)]
pub struct Reads {
    /// The documents, where no journal is asked for.
    pub documents: Documents,
    /// Whether it reads a journal.
    pub journals: Journals,
}

/// What to do with an input.
#[derive(Clone, Copy)]
pub enum Advice {
    /// To ask for a journal.
    Journal,
    /// To ask for no journal.
    NoJournal,
    /// To use `run`.
    Run,
    /// To give the command the history of a run.
    RunHistory,
    /// To give it the journal of a run.
    RunJournal,
    /// To use `storm`.
    Storm,
    /// To use `audit`.
    Audit,
    /// To use `audit --journal`.
    AuditJournal,
    /// To use `live`.
    Live,
}

// The kind of a document, where it has a member that tells it.
fn kind_told(document: &Value) -> Option<InputKind>
    ensures { result ≡ kind_told (view document.now) }
{
    if has(document, "calls") || has(document, "scripts") || has(document, "entries") {
        return Some(InputKind::Document(kind_in(document)));
    }
    None
}

// The kind of the document that bytes are the text of, where they are one that tells it.
fn document_told(alloc: Global, bytes: &[u8]) -> Result<Option<InputKind>, TextFault>
    ensures ok { IfOk result (λ kind. kind ≡ document_told (value_of bytes.now)) }
    ensures err { IfErr result (λ e. e ≡ TextFault.Memory) }
{
    match parse(alloc, bytes) {
        Ok(document) => Ok(kind_told(&document)),
        Err(TextFault::Memory) => Err(TextFault::Memory),
        Err(_) => Ok(None),
    }
}

/// What an input of these bytes is, or one that begins with them: by its first lines, or else by the members of the
/// document that they are. Of what is no JSON, or has no such member, nothing is known.
pub fn input_kind(alloc: Global, bytes: &[u8]) -> Result<Option<InputKind>, TextFault>
    ensures ok { IfOk result (λ kind. kind ≡ input_kind bytes.now) }
    ensures err { IfErr result (λ e. e ≡ TextFault.Memory) }
{
    match kind_of_front(alloc, bytes)? {
        FileKind::Document => document_told(alloc, bytes),
        FileKind::Journal => Ok(Some(InputKind::Journal)),
        FileKind::Live => Ok(Some(InputKind::Live)),
    }
}

// Whether a command that reads these documents reads one of this kind.
fn is_read(documents: Documents, kind: Kind) -> bool
    ensures { result ≡ is_read documents kind }
{
    match kind {
        Kind::Script => matches!(documents, Documents::Scripts | Documents::Both),
        Kind::Storm => matches!(documents, Documents::Storms),
        Kind::History => matches!(documents, Documents::Histories | Documents::Both),
    }
}

// What to do with a script: a command that judges a history, or tells of one, needs that of a run.
fn advice_on_script(reads: Reads) -> Advice
    ensures { result ≡ advice_on_script reads.documents reads.journals }
{
    match (reads.documents, reads.journals) {
        (Documents::Histories, Journals::Asked) => Advice::RunJournal,
        (Documents::Histories, _) => Advice::RunHistory,
        _ => Advice::Run,
    }
}

// The command for documents of this kind.
fn command_for(kind: Kind, reads: Reads) -> Advice
    ensures { result ≡ command_for kind reads.documents reads.journals }
{
    match kind {
        Kind::Script => advice_on_script(reads),
        Kind::Storm => Advice::Storm,
        Kind::History => Advice::Audit,
    }
}

// What to do with a journal.
fn advice_on_journal(journals: Journals) -> Option<Advice>
    ensures { result ≡ advice_on_journal journals }
{
    match journals {
        Journals::Never => Some(Advice::AuditJournal),
        Journals::Unasked => Some(Advice::Journal),
        Journals::Asked => None,
    }
}

// What to do with a document that the command reads where no journal is asked for.
fn advice_on_read(journals: Journals) -> Option<Advice>
    ensures { result ≡ advice_on_read journals }
{
    match journals {
        Journals::Asked => Some(Advice::NoJournal),
        _ => None,
    }
}

/// What to do with an input of this kind that was given to a command: nothing where the command reads it as it is.
pub fn advice_on(kind: InputKind, reads: Reads) -> Option<Advice>
    ensures { result ≡ advice_on kind reads.documents reads.journals }
{
    match kind {
        InputKind::Live => Some(Advice::Live),
        InputKind::Journal => advice_on_journal(reads.journals),
        InputKind::Document(kind) if is_read(reads.documents, kind) => {
            advice_on_read(reads.journals)
        }
        InputKind::Document(kind) => Some(command_for(kind, reads)),
    }
}

// The name of an input of this kind.
fn name_of(kind: InputKind) -> &'static str {
    match kind {
        InputKind::Document(Kind::Script) => "a script",
        InputKind::Document(Kind::Storm) => "a script of a storm",
        InputKind::Document(Kind::History) => "a history",
        InputKind::Journal => "a journal",
        InputKind::Live => "live input",
    }
}

// What to do, in words: with the name of the command, where it reads what another one makes.
fn words_of(alloc: Global, advice: Advice, command: &str) -> Result<String, AllocError> {
    let words = match advice {
        Advice::Journal => "use --journal",
        Advice::NoJournal => "leave out --journal",
        Advice::Run => "use mapsched run",
        Advice::RunHistory => {
            return format!(in alloc; "use mapsched run --history FILE | mapsched {command}");
        }
        Advice::RunJournal => {
            return format!(in alloc;
                "use mapsched run --journal FILE | mapsched {command} --journal"
            );
        }
        Advice::Storm => "use mapsched storm",
        Advice::Audit => "use mapsched audit",
        Advice::AuditJournal => "use mapsched audit --journal",
        Advice::Live => "use mapsched live",
    };
    String::from_str(alloc, words)
}

/// Tells on standard error what an input is that begins with these bytes, and what to do with it, where the command of
/// this name that it was given to does not read it as it is. Whether anything was told.
pub fn tell_input(
    rt: &(impl Eprint + AllocGlobal),
    bytes: &[u8],
    command: &str,
    reads: Reads,
) -> bool {
    let Ok(Some(kind)) = input_kind(rt.alloc(), bytes) else {
        return false;
    };
    let Some(advice) = advice_on(kind, reads) else {
        return false;
    };
    let Ok(words) = words_of(rt.alloc(), advice, command) else {
        return false;
    };
    let _ = rt.eprintln(format_args!("this is {}: {words}", name_of(kind)));
    true
}
