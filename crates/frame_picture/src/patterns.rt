//! The patterns of bars.

ghost use Rattle.frame_picture.specs.Patterns.{request_patterns, short_pattern, ranging_pattern, other_patterns};
ghost use Rattle.frame_picture.specs.Patterns.{patterns_text};
ghost use Rattle.text_stream.specs.Writing.{Puts};

use text_stream::{Sink, TextBuffer, TextFault};

// The patterns of bars in which modems may ask.
#[tactic(auto, unfolding(crate::specs::Patterns::request_patterns))]
fn put_request_patterns<W: Sink>(lines: &mut TextBuffer, writer: &mut W) -> Result<(), TextFault>
    ensures { Puts W.contents W.has_failed writer.old writer.new lines.old lines.new
        (request_patterns) result }
{
    lines.put(
        writer,
        b"<defs><pattern id='region' width='6' height='6' patternUnits='userSpaceOnUse'>",
    )?;
    lines.put(
        writer,
        b"<path fill='#eee' d='M0 0h6v6H0z'/><path fill='#555' d='M2 2h2v2H2z'/></pattern>\n",
    )?;
    lines.put(
        writer,
        b"<pattern id='poll' width='8' height='8' patternUnits='userSpaceOnUse' patternTransform='rotate(45)'>",
    )?;
    lines.put(
        writer,
        b"<path fill='#ffd79a' d='M0 0h8v8H0z'/><path fill='#b85f00' d='M0 0h4v8H0z'/></pattern>\n",
    )
}

// The pattern of short data grants.
#[tactic(auto, unfolding(crate::specs::Patterns::short_pattern))]
fn put_short_pattern<W: Sink>(lines: &mut TextBuffer, writer: &mut W) -> Result<(), TextFault>
    ensures { Puts W.contents W.has_failed writer.old writer.new lines.old lines.new
        (short_pattern) result }
{
    lines.put(
        writer,
        b"<pattern id='short' width='6' height='6' patternUnits='userSpaceOnUse'>",
    )?;
    lines.put(
        writer,
        b"<path fill='#8fd9ba' d='M0 0h6v6H0z'/><path fill='#006b4b' d='M0 0h6v2H0z'/></pattern>\n",
    )
}

// The pattern of minislots in which modems range.
#[tactic(auto, unfolding(crate::specs::Patterns::ranging_pattern))]
fn put_ranging_pattern<W: Sink>(lines: &mut TextBuffer, writer: &mut W) -> Result<(), TextFault>
    ensures { Puts W.contents W.has_failed writer.old writer.new lines.old lines.new
        (ranging_pattern) result }
{
    lines.put(
        writer,
        b"<pattern id='ranging' width='8' height='8' patternUnits='userSpaceOnUse'>",
    )?;
    lines.put(writer, b"<path fill='#f5ec8e' d='M0 0h8v8H0z'/>")?;
    lines.put(
        writer,
        b"<path fill='none' stroke='#6b5d00' d='M0 6l4-4 4 4'/></pattern>\n",
    )
}

// The patterns of unsolicited grants and of what is none of these.
#[tactic(auto, unfolding(crate::specs::Patterns::other_patterns))]
fn put_other_patterns<W: Sink>(lines: &mut TextBuffer, writer: &mut W) -> Result<(), TextFault>
    ensures { Puts W.contents W.has_failed writer.old writer.new lines.old lines.new
        (other_patterns) result }
{
    lines.put(
        writer,
        b"<pattern id='unsolicited' width='8' height='8' patternUnits='userSpaceOnUse'>",
    )?;
    lines.put(
        writer,
        b"<path fill='#eaa9cd' d='M0 0h8v8H0z'/><path stroke='#80154f' d='M0 0l8 8M8 0l-8 8'/></pattern>\n",
    )?;
    lines.put(
        writer,
        b"<pattern id='other' width='6' height='6' patternUnits='userSpaceOnUse'>",
    )?;
    lines.put(
        writer,
        b"<path fill='#ddd' d='M0 0h6v6H0z'/><path fill='#555' d='M0 0h2v6H0z'/></pattern>\n",
    )
}

// The patterns of bars.
#[tactic(auto, unfolding(crate::specs::Patterns::patterns_text))]
pub(crate) fn put_patterns<W: Sink>(lines: &mut TextBuffer, writer: &mut W) -> Result<(), TextFault>
    ensures { Puts W.contents W.has_failed writer.old writer.new lines.old lines.new
        (patterns_text) result }
{
    put_request_patterns(lines, writer)?;
    put_short_pattern(lines, writer)?;
    put_ranging_pattern(lines, writer)?;
    put_other_patterns(lines, writer)
}
