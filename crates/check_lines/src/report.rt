//! What is said of a file.

ghost use Rattle.std.specs.Prelude.{◌≡◌, IfOk, IfErr};
ghost use Rattle.check_lines.specs.DocumentKind.{kind_of};
ghost use Rattle.check_lines.specs.Report.{kind_shown};
ghost use Rattle.check_lines.specs.Found.{fault_of};

use crate::document_kind::kind_in;
use crate::finding::{Finding, find_as};
use file_words::{words_on, words_on_text};
use json_fields::forms::Kind;
use serde_json::Value;
use std::alloc::{AllocError, Global};
use text_stream::{TextFault, parse};

/// What is said of a file.
#[derive(Drop)]
pub struct Report {
    /// The kind of file that it seems to be.
    pub kind: Kind,
    /// Its first fault.
    pub fault: Option<TextFault>,
    /// Lines on the fault, or on what the file has.
    pub words: String,
}

// The document that bytes are the text of, where they are one.
fn document_of(alloc: Global, bytes: &[u8]) -> Result<Option<Value>, TextFault>
    ensures ok { IfOk result (λ found. kind_shown found ≡ kind_of bytes.now) }
    ensures err { IfErr result (λ e. e ≡ TextFault.Memory) }
{
    match parse(alloc, bytes) {
        Ok(document) => Ok(Some(document)),
        Err(TextFault::Memory) => Err(TextFault::Memory),
        Err(_) => Ok(None),
    }
}

// The kind of file that a document seems to be.
fn kind_shown(document: &Option<Value>) -> Kind
    ensures { result ≡ kind_shown document.now }
{
    match document {
        Some(document) => kind_in(document),
        None => Kind::Script,
    }
}

// The words on what is found.
fn words_of(
    alloc: Global,
    bytes: &[u8],
    kind: Kind,
    document: &Option<Value>,
    finding: &Finding,
) -> Result<String, AllocError> {
    let found = match finding {
        Finding::Good(config) => Ok(config.config()),
        Finding::Fault(fault) => Err(*fault),
    };
    match document {
        Some(document) => words_on(alloc, bytes, kind, document, found),
        None => words_on_text(alloc, bytes),
    }
}

/// The report on a file of these bytes.
pub fn report_on(alloc: Global, bytes: &[u8]) -> Result<Report, TextFault>
    ensures kind { IfOk result (λ r. r.kind ≡ kind_of bytes.now) }
    ensures fault { IfOk result (λ r. r.fault ≡ fault_of bytes.now) }
    ensures err { IfErr result (λ e. e ≡ TextFault.Memory) }
{
    let document = document_of(alloc, bytes)?;
    let kind = kind_shown(&document);
    let finding = find_as(alloc, kind, bytes)?;
    let words = words_of(alloc, bytes, kind, &document, &finding)?;
    Ok(Report {
        kind,
        fault: finding.fault(),
        words,
    })
}
