//! The head of a picture: how its bars look, and what each look is for.

ghost use Rattle.std.specs.Prelude.{◌≤◌};
ghost use Rattle.sched_calls.specs.declared.reply.TheConstants.{MAX_ENTRIES};
ghost use Rattle.frame_picture.specs.Head.{style_text, dark_text, ground_text, usual_legend, other_legend};
ghost use Rattle.frame_picture.specs.Head.{size_text, counts_text, shown_if, head_text};
ghost use Rattle.text_stream.specs.Writing.{Puts};

use crate::layout::{Scale, depth_of};
use crate::opportunities::{put_met_keys, put_met_patterns, put_met_rules};
use crate::patterns::put_patterns;
use crate::shade::put_shade_rules;
use crate::text::put_labelled;
use crate::time::put_ms;
use text_stream::{Sink, TextBuffer, TextFault};

// How the parts of a picture look.
#[tactic(auto, unfolding(crate::specs::Head::style_text))]
fn put_style<W: Sink>(lines: &mut TextBuffer, writer: &mut W) -> Result<(), TextFault>
    ensures { Puts W.contents W.has_failed writer.old writer.new lines.old lines.new
        (style_text) result }
{
    lines.put(
        writer,
        b"' font-family='sans-serif' font-size='12'>\n<style>.head{font-size:14px}",
    )?;
    lines.put(
        writer,
        b".start,.at{font-size:11px;text-anchor:middle}.start{text-anchor:end}rect,.key{stroke:#333;",
    )?;
    lines.put(
        writer,
        b"stroke-width:.5px}\n.tick{stroke:#ccc}.sid{paint-order:stroke;stroke:#fff;stroke-width:3px;",
    )?;
    lines.put(
        writer,
        b"stroke-linejoin:round}\n.region{fill:url(#region)}.poll{fill:url(#poll)}.short{fill:url(#short)}",
    )?;
    lines.put(
        writer,
        b".long{fill:#2f7fc1}\n.unsolicited{fill:url(#unsolicited)}.ranging{fill:url(#ranging)}.idle{fill:#fff}",
    )?;
    lines.put(
        writer,
        b".other{fill:url(#other)}\n.left{font-size:11px}.gap{stroke:#c22;stroke-width:2;stroke-dasharray:6 4}\n",
    )
}

// A text, where it is shown.
fn put_if<W: Sink>(
    lines: &mut TextBuffer,
    writer: &mut W,
    shown: bool,
    text: &[u8],
) -> Result<(), TextFault>
    ensures { Puts W.contents W.has_failed writer.old writer.new lines.old lines.new
        (shown_if shown text.now) result }
{
    if !shown {
        return Ok(());
    }
    lines.put(writer, text)
}

// How they look where a reader has a dark screen. These rules stand behind those that they change.
#[tactic(auto, unfolding(crate::specs::Head::dark_text))]
fn put_dark<W: Sink>(lines: &mut TextBuffer, writer: &mut W) -> Result<(), TextFault>
    ensures { Puts W.contents W.has_failed writer.old writer.new lines.old lines.new
        (dark_text) result }
{
    lines.put(
        writer,
        b"@media (prefers-color-scheme:dark){.ground,.idle{fill:#181818}text{fill:#ddd}.sid{fill:#000}",
    )?;
    lines.put(
        writer,
        b".tick{stroke:#444}rect,.key{stroke:#999}.gap{stroke:#f66}}\n",
    )
}

// The ground under a picture of so many rows.
#[tactic(auto, unfolding(crate::specs::Head::ground_text))]
fn put_ground<W: Sink>(lines: &mut TextBuffer, writer: &mut W, rows: u64) -> Result<(), TextFault>
    requires { rows ≤ MAX_ENTRIES }
    ensures { Puts W.contents W.has_failed writer.old writer.new lines.old lines.new
        (ground_text rows) result }
{
    put_labelled(
        lines,
        writer,
        b"</style>\n<path class='ground' fill='#fff' d='M0 0h1220v",
        depth_of(rows),
    )?;
    lines.put(writer, b"H0z'/>\n")
}

// What the looks are for of the minislots in which modems may ask, and of data grants. Each axis shows the legend.
#[tactic(auto, unfolding(crate::specs::Head::usual_legend))]
fn put_usual_legend<W: Sink>(lines: &mut TextBuffer, writer: &mut W) -> Result<(), TextFault>
    ensures { Puts W.contents W.has_failed writer.old writer.new lines.old lines.new
        (usual_legend) result }
{
    lines.put(
        writer,
        b"<g id='legend'><path class='key region' d='M-160 8h28v16h-28z'/>",
    )?;
    lines.put(writer, b"<text x='-124' y='21'>request region</text>\n")?;
    lines.put(
        writer,
        b"<path class='key poll' d='M-12 8h28v16h-28z'/><text x='24' y='21'>poll of one modem</text>\n",
    )?;
    lines.put(
        writer,
        b"<path class='key short' d='M156 8h28v16h-28z'/><text x='192' y='21'>short data grant</text>\n",
    )?;
    lines.put(
        writer,
        b"<path class='key long' d='M306 8h28v16h-28z'/><text x='342' y='21'>long data grant</text>\n",
    )
}

// What the other looks are for, and what the numbers before a row are.
#[tactic(auto, unfolding(crate::specs::Head::other_legend))]
fn put_other_legend<W: Sink>(lines: &mut TextBuffer, writer: &mut W) -> Result<(), TextFault>
    ensures { Puts W.contents W.has_failed writer.old writer.new lines.old lines.new
        (other_legend) result }
{
    lines.put(
        writer,
        b"<path class='key unsolicited' d='M452 8h28v16h-28z'/><text x='488' y='21'>unsolicited grant</text>\n",
    )?;
    lines.put(
        writer,
        b"<path class='key ranging' d='M606 8h28v16h-28z'/><text x='642' y='21'>ranging</text>\n",
    )?;
    lines.put(
        writer,
        b"<path class='key idle' d='M728 8h28v16h-28z'/><text x='764' y='21'>idle</text>\n",
    )?;
    lines.put(
        writer,
        b"<path class='key other' d='M876 8h28v16h-28z'/><text x='912' y='21'>other</text>\n",
    )?;
    lines.put(
        writer,
        b"<text class='start' x='-128' y='46'>frame</text><text class='start' x='-8' y='46'>minislot</text>\n",
    )?;
    lines.put(
        writer,
        b"<text class='start' x='-8' y='59'>ms</text></g></defs>\n",
    )
}

// How large a picture of so many rows is.
#[tactic(auto, unfolding(crate::specs::Head::size_text))]
fn put_size<W: Sink>(lines: &mut TextBuffer, writer: &mut W, rows: u64) -> Result<(), TextFault>
    requires { rows ≤ MAX_ENTRIES }
    ensures { Puts W.contents W.has_failed writer.old writer.new lines.old lines.new
        (size_text rows) result }
{
    let depth = depth_of(rows);
    put_labelled(
        lines,
        writer,
        b"<svg xmlns='http://www.w3.org/2000/svg' width='1220' height='",
        depth,
    )?;
    put_labelled(lines, writer, b"' viewBox='0 0 1220 ", depth)
}

// How many of so many frames are drawn, and how long a frame is.
#[tactic(auto, unfolding(crate::specs::Head::counts_text))]
fn put_counts<W: Sink>(
    lines: &mut TextBuffer,
    writer: &mut W,
    scale: Scale,
    rows: u64,
    total: u64,
) -> Result<(), TextFault>
    ensures { Puts W.contents W.has_failed writer.old writer.new lines.old lines.new
        (counts_text scale rows total) result }
{
    let frame = u64::from(scale.frame);
    let label = b"<text class='head' x='16' y='26'>Frames drawn: ";
    put_labelled(lines, writer, label, rows)?;
    put_labelled(lines, writer, b" of ", total)?;
    put_labelled(lines, writer, b". A frame: ", frame)?;
    lines.put(writer, b" minislots, ")?;
    put_ms(lines, writer, scale.ticks, frame)?;
    lines.put(
        writer,
        b" ms. The shade of a box goes by its SID. A dashed line: frames left out.</text>\n",
    )
}

// The head of a picture of so many rows, of so many frames in all: with open idles where the channel has them.
#[tactic(auto, unfolding(crate::specs::Head::head_text))]
pub(crate) fn put_head<W: Sink>(
    lines: &mut TextBuffer,
    writer: &mut W,
    scale: Scale,
    rows: u64,
    total: u64,
) -> Result<(), TextFault>
    requires { rows ≤ MAX_ENTRIES }
    ensures { Puts W.contents W.has_failed writer.old writer.new lines.old lines.new
        (head_text scale rows total) result }
{
    put_size(lines, writer, rows)?;
    put_style(lines, writer)?;
    put_met_rules(lines, writer)?;
    put_shade_rules(lines, writer)?;
    put_if(lines, writer, scale.opens, b".open{fill:#d8c9f2}\n")?;
    put_dark(lines, writer)?;
    put_ground(lines, writer, rows)?;
    put_patterns(lines, writer)?;
    put_met_patterns(lines, writer)?;
    put_usual_legend(lines, writer)?;
    put_met_keys(lines, writer)?;
    put_if(
        lines,
        writer,
        scale.opens,
        b"<path class='key open' d='M952 8h28v16h-28z'/><text x='988' y='21'>open idle</text>\n",
    )?;
    put_other_legend(lines, writer)?;
    put_counts(lines, writer, scale, rows, total)
}
