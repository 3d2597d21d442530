//! How opportunities that were reserved look, where they are no ranging.

ghost use Rattle.frame_picture.specs.Opportunities.{met_rules, met_patterns, met_keys};
ghost use Rattle.text_stream.specs.Writing.{Puts};

use text_stream::{Sink, TextBuffer, TextFault};

// How they look.
#[tactic(auto, unfolding(crate::specs::Opportunities::met_rules))]
pub(crate) fn put_met_rules<W: Sink>(
    lines: &mut TextBuffer,
    writer: &mut W,
) -> Result<(), TextFault>
    ensures { Puts W.contents W.has_failed writer.old writer.new lines.old lines.new
        (met_rules) result }
{
    lines.put(
        writer,
        b".request{fill:url(#request)}.quiet{fill:url(#quiet)}.data{fill:url(#data)}\n",
    )
}

// Their patterns.
#[tactic(auto, unfolding(crate::specs::Opportunities::met_patterns))]
pub(crate) fn put_met_patterns<W: Sink>(
    lines: &mut TextBuffer,
    writer: &mut W,
) -> Result<(), TextFault>
    ensures { Puts W.contents W.has_failed writer.old writer.new lines.old lines.new
        (met_patterns) result }
{
    lines.put(
        writer,
        b"<pattern id='request' width='6' height='6' patternUnits='userSpaceOnUse'>",
    )?;
    lines.put(
        writer,
        b"<path fill='#ffd79a' d='M0 0h6v6H0z'/><path fill='#b85f00' d='M2 2h2v2H2z'/></pattern>\n",
    )?;
    lines.put(
        writer,
        b"<pattern id='quiet' width='6' height='6' patternUnits='userSpaceOnUse'>",
    )?;
    lines.put(
        writer,
        b"<path fill='#c9cfd6' d='M0 0h6v6H0z'/><path stroke='#5c6873' d='M0 3h6'/></pattern>\n",
    )?;
    lines.put(
        writer,
        b"<pattern id='data' width='6' height='6' patternUnits='userSpaceOnUse'>",
    )?;
    lines.put(
        writer,
        b"<path fill='#a9cdec' d='M0 0h6v6H0z'/><path fill='#1d5c91' d='M2 2h2v2H2z'/></pattern>\n",
    )
}

// What their looks are for, above the legend of the others.
#[tactic(auto, unfolding(crate::specs::Opportunities::met_keys))]
pub(crate) fn put_met_keys<W: Sink>(lines: &mut TextBuffer, writer: &mut W) -> Result<(), TextFault>
    ensures { Puts W.contents W.has_failed writer.old writer.new lines.old lines.new
        (met_keys) result }
{
    lines.put(
        writer,
        b"<path class='key request' d='M604-5h28v11h-28z'/><text x='640' y='5'>request opportunity</text>\n",
    )?;
    lines.put(
        writer,
        b"<path class='key quiet' d='M772-5h28v11h-28z'/><text x='808' y='5'>quiet window</text>\n",
    )?;
    lines.put(
        writer,
        b"<path class='key data' d='M900-5h28v11h-28z'/><text x='936' y='5'>data opportunity</text>\n",
    )
}
