//! What is told of a file as JSON: an object in one line.

ghost use Rattle.std.specs.Prelude.{◌≡◌, ◌++◌, ◌∷◌, [], codes, flat_map, OnOk};
ghost use Rattle.json.specs.Token.{boolean, key};
ghost use Rattle.check_lines.specs.Objects.{numbered, given, titled};
ghost use Rattle.check_lines.specs.Objects.{good_members, faulty_members, document_members, legal_members};
ghost use Rattle.check_lines.specs.Objects.{journal_members, opening_members, finding_object, findings_member};
ghost use Rattle.check_lines.specs.Objects.{talk_members};

use crate::live::Conversation;
use crate::names::{fault_name, kind_name, number_of};
use crate::told_line::ToldLine;
use journal_entries::EntriesEnd;
use json::Writer;
use json_fields::forms::Kind;
use std::alloc::AllocError;
use text_stream::TextFault;

// A whole number under a key.
fn put_count(out: &mut Writer, name: &str, number: u64) -> Result<(), AllocError>
    ensures ok { OnOk result (out.new.tokens ≡ out.old.tokens ++ numbered name.now number) }
    ensures before { out.new.before ≡ out.old.before }
{
    out.key(name)?;
    out.u64(number)
}

// The same, where there is one.
fn put_given(out: &mut Writer, name: &str, number: Option<u64>) -> Result<(), AllocError>
    ensures ok { OnOk result (out.new.tokens ≡ out.old.tokens ++ given name.now number) }
    ensures before { out.new.before ≡ out.old.before }
{
    match number {
        Some(number) => put_count(out, name, number),
        None => Ok(()),
    }
}

// A text under a key.
fn put_titled(out: &mut Writer, name: &str, text: &str) -> Result<(), AllocError>
    ensures ok { OnOk result (out.new.tokens ≡ out.old.tokens ++ titled name.now text.now) }
    ensures before { out.new.before ≡ out.old.before }
{
    out.key(name)?;
    out.string(text)
}

// Whether a file is good.
fn put_good(out: &mut Writer, is: bool) -> Result<(), AllocError>
    ensures ok { OnOk result
        (out.new.tokens ≡ out.old.tokens ++ (key (codes "good") ∷ boolean is ∷ [])) }
    ensures before { out.new.before ≡ out.old.before }
{
    out.key("good")?;
    out.boolean(is)
}

// A document without a fault.
#[tactic(auto, unfolding(crate::specs::Objects::good_members))]
fn put_good_document(out: &mut Writer, kind: &str, words: &str) -> Result<(), AllocError>
    ensures ok { OnOk result (out.new.tokens ≡ out.old.tokens ++ good_members kind.now words.now) }
    ensures before { out.new.before ≡ out.old.before }
{
    put_good(out, true)?;
    put_titled(out, "kind", kind)?;
    put_titled(out, "words", words)
}

// A file with a fault.
#[tactic(auto, unfolding(crate::specs::Objects::faulty_members))]
fn put_faulty(
    out: &mut Writer,
    fault: &str,
    kind: &str,
    line: Option<u64>,
    number: Option<u64>,
    words: &str,
) -> Result<(), AllocError>
    ensures ok { OnOk result (out.new.tokens
        ≡ out.old.tokens ++ faulty_members fault.now kind.now line number words.now) }
    ensures before { out.new.before ≡ out.old.before }
{
    put_titled(out, "fault", fault)?;
    put_good(out, false)?;
    put_titled(out, "kind", kind)?;
    put_given(out, "line", line)?;
    put_given(out, "number", number)?;
    put_titled(out, "words", words)
}

/// Writes the members of a document of this kind, in which this fault is found, or none.
pub(crate) fn put_document(
    out: &mut Writer,
    kind: Kind,
    found: Option<TextFault>,
    words: &str,
) -> Result<(), AllocError>
    ensures ok { OnOk result
        (out.new.tokens ≡ out.old.tokens ++ document_members kind found words.now) }
    ensures before { out.new.before ≡ out.old.before }
{
    let Some(fault) = found else {
        return put_good_document(out, kind_name(kind), words);
    };
    let (name, number) = (fault_name(fault), number_of(fault));
    put_faulty(out, name, kind_name(kind), None, number, words)
}

// A legal journal.
#[tactic(auto, unfolding(crate::specs::Objects::legal_members))]
fn put_legal(out: &mut Writer, entries: u64, torn: u64) -> Result<(), AllocError>
    ensures ok { OnOk result (out.new.tokens ≡ out.old.tokens ++ legal_members entries torn) }
    ensures before { out.new.before ≡ out.old.before }
{
    put_count(out, "entries", entries)?;
    put_good(out, true)?;
    put_titled(out, "kind", "journal")?;
    put_count(out, "torn", torn)
}

/// Writes those of a journal that ends so, with so many entries where it is legal.
pub(crate) fn put_journal(
    out: &mut Writer,
    end: EntriesEnd,
    entries: u64,
    words: &str,
) -> Result<(), AllocError>
    ensures ok { OnOk result
        (out.new.tokens ≡ out.old.tokens ++ journal_members end entries words.now) }
    ensures before { out.new.before ≡ out.old.before }
{
    match end {
        EntriesEnd::Legal(torn) => put_legal(out, entries, torn),
        EntriesEnd::Illegal(place) => {
            let line = place.saturating_add(2);
            put_faulty(out, "illegal", "journal", Some(line), Some(place), words)
        }
        EntriesEnd::Bad(place) => {
            let line = place.saturating_add(1);
            put_faulty(
                out,
                "bad journal",
                "journal",
                Some(line),
                Some(place),
                words,
            )
        }
    }
}

/// Writes those of a conversation whose configuration has this fault, in this line, where there is one.
pub(crate) fn put_opening(
    out: &mut Writer,
    fault: TextFault,
    place: Option<u64>,
    words: &str,
) -> Result<(), AllocError>
    ensures ok { OnOk result
        (out.new.tokens ≡ out.old.tokens ++ opening_members fault place words.now) }
    ensures before { out.new.before ≡ out.old.before }
{
    let (name, number) = (fault_name(fault), number_of(fault));
    put_faulty(out, name, "live", place, number, words)
}

// A bad line that is told.
#[tactic(auto, unfolding(crate::specs::Objects::finding_object))]
fn put_finding(out: &mut Writer, told: &ToldLine) -> Result<(), AllocError>
    ensures ok { OnOk result (out.new.tokens ≡ out.old.tokens ++ finding_object told.now) }
    ensures before { out.new.before ≡ out.old.before }
{
    out.begin_object()?;
    put_titled(out, "fault", told.fault.words())?;
    put_count(out, "line", told.number)?;
    put_titled(out, "words", told.words.as_str())?;
    out.end_object()
}

// The bad lines that are told, one after the other.
fn put_each(out: &mut Writer, told: &[ToldLine]) -> Result<(), AllocError>
    ensures ok { OnOk result
        (out.new.tokens ≡ out.old.tokens ++ flat_map finding_object told.now) }
    ensures before { out.new.before ≡ out.old.before }
{
    for line in told {
        put_finding(out, line)?;
    }
    Ok(())
}

// The bad lines that are told.
#[tactic(auto, unfolding(crate::specs::Objects::findings_member))]
fn put_findings(out: &mut Writer, told: &[ToldLine]) -> Result<(), AllocError>
    ensures ok { OnOk result (out.new.tokens ≡ out.old.tokens ++ findings_member told.now) }
    ensures before { out.new.before ≡ out.old.before }
{
    out.key("findings")?;
    out.begin_array()?;
    put_each(out, told)?;
    out.end_array()
}

/// Writes those of a conversation.
#[tactic(auto, unfolding(crate::specs::Objects::talk_members))]
pub(crate) fn put_talk(out: &mut Writer, talk: &Conversation) -> Result<(), AllocError>
    ensures ok { OnOk result (out.new.tokens ≡ out.old.tokens ++ talk_members talk.now) }
    ensures before { out.new.before ≡ out.old.before }
{
    put_count(out, "bad", talk.bad)?;
    put_count(out, "calls", talk.calls)?;
    put_findings(out, &talk.told)?;
    put_good(out, talk.bad == 0)?;
    put_titled(out, "kind", "live")
}
