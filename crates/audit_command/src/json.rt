//! A verdict as JSON.

ghost use Rattle.text_stream.specs.Writing.{Writes};
ghost use Rattle.audit_command.specs.VerdictJson.{labelled, legal_json, illegal_json, legal_journal_json};

use itoa::Buffer;
use text_stream::{Sink, TextFault, put};

// A label and a number in decimal.
#[tactic(auto, unfolding(crate::specs::VerdictJson::labelled))]
fn put_labelled<W: Sink>(writer: &mut W, label: &[u8], number: u64) -> Result<(), TextFault>
    ensures { Writes W.contents W.has_failed writer.old writer.new
        (labelled label.now number) result }
{
    let mut buffer = Buffer::new();
    put(writer, label)?;
    put(writer, buffer.format(number).as_bytes())
}

/// Writes that a history is legal, and how many entries it has.
#[tactic(auto, unfolding(crate::specs::VerdictJson::legal_json))]
pub(crate) fn put_legal_json<W: Sink>(writer: &mut W, entries: u64) -> Result<(), TextFault>
    ensures { Writes W.contents W.has_failed writer.old writer.new (legal_json entries) result }
{
    put_labelled(writer, b"{\"entries\":", entries)?;
    put(writer, b",\"legal\":true}\n")
}

/// Writes that a history or a journal is not legal, and the first entry that is not lawful, counted from 0.
#[tactic(auto, unfolding(crate::specs::VerdictJson::illegal_json))]
pub(crate) fn put_illegal_json<W: Sink>(writer: &mut W, index: u64) -> Result<(), TextFault>
    ensures { Writes W.contents W.has_failed writer.old writer.new (illegal_json index) result }
{
    put_labelled(writer, b"{\"illegal\":", index)?;
    put(writer, b",\"legal\":false}\n")
}

/// Writes that a journal is legal, how many entries it has, and how many bytes stand behind its last newline.
#[tactic(auto, unfolding(crate::specs::VerdictJson::legal_journal_json))]
pub(crate) fn put_legal_journal_json<W: Sink>(
    writer: &mut W,
    entries: u64,
    torn: u64,
) -> Result<(), TextFault>
    ensures { Writes W.contents W.has_failed writer.old writer.new
        (legal_journal_json entries torn) result }
{
    put_labelled(writer, b"{\"entries\":", entries)?;
    put_labelled(writer, b",\"legal\":true,\"torn\":", torn)?;
    put(writer, b"}\n")
}
