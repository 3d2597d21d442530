//! What is told of a file as a line of JSON.

ghost use Rattle.std.specs.Prelude.{◌≡◌, ◌++◌, ◌∷◌, [], IfOk};
ghost use Rattle.json.specs.Token.{begin_object, end_object};
ghost use Rattle.json.specs.Print.{print};
ghost use Rattle.check_lines.specs.Objects.{object_line, document_members, journal_members, opening_members};
ghost use Rattle.check_lines.specs.Objects.{talk_members};

use crate::live::Conversation;
use crate::objects::{put_document, put_journal, put_opening, put_talk};
use journal_entries::EntriesEnd;
use json::Writer;
use json_fields::forms::Kind;
use std::alloc::{AllocError, Global};
use text_stream::TextFault;

// Begins an object.
fn begin(alloc: Global) -> Result<Writer, AllocError>
    ensures before { IfOk result (λ out. out.before ≡ []) }
    ensures tokens { IfOk result (λ out. out.tokens ≡ begin_object ∷ []) }
{
    let mut out = Writer::new(Vec::new(alloc));
    out.begin_object()?;
    Ok(out)
}

// Ends an object and its line.
fn end(written: Writer) -> Result<Vec<u8>, AllocError>
    ensures { IfOk result (λ text. text.items
        ≡ written.before ++ (print (written.tokens ++ end_object ∷ []) ++ 10 ∷ [])) }
{
    let mut out = written;
    out.end_object()?;
    let mut text = out.into_inner();
    text.push(b'\n')?;
    Ok(text)
}

/// The line of a document of this kind, in which this fault is found, or none; with words.
#[tactic(auto, unfolding(crate::specs::Objects::object_line))]
pub(crate) fn document_line(
    alloc: Global,
    kind: Kind,
    found: Option<TextFault>,
    words: &str,
) -> Result<Vec<u8>, AllocError>
    ensures { IfOk result
        (λ text. text.items ≡ object_line (document_members kind found words.now)) }
{
    let mut out = begin(alloc)?;
    put_document(&mut out, kind, found, words)?;
    end(out)
}

/// That of a journal that ends so, with so many entries where it is legal.
#[tactic(auto, unfolding(crate::specs::Objects::object_line))]
pub(crate) fn journal_line(
    alloc: Global,
    ends: EntriesEnd,
    entries: u64,
    words: &str,
) -> Result<Vec<u8>, AllocError>
    ensures { IfOk result
        (λ text. text.items ≡ object_line (journal_members ends entries words.now)) }
{
    let mut out = begin(alloc)?;
    put_journal(&mut out, ends, entries, words)?;
    end(out)
}

/// That of a conversation whose configuration has this fault, in this line, where there is one.
#[tactic(auto, unfolding(crate::specs::Objects::object_line))]
pub(crate) fn opening_line(
    alloc: Global,
    fault: TextFault,
    place: Option<u64>,
    words: &str,
) -> Result<Vec<u8>, AllocError>
    ensures { IfOk result
        (λ text. text.items ≡ object_line (opening_members fault place words.now)) }
{
    let mut out = begin(alloc)?;
    put_opening(&mut out, fault, place, words)?;
    end(out)
}

/// That of the lines of a conversation.
#[tactic(auto, unfolding(crate::specs::Objects::object_line))]
pub(crate) fn talk_line(alloc: Global, talk: &Conversation) -> Result<Vec<u8>, AllocError>
    ensures { IfOk result (λ text. text.items ≡ object_line (talk_members talk.now)) }
{
    let mut out = begin(alloc)?;
    put_talk(&mut out, talk)?;
    end(out)
}
