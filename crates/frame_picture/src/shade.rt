//! The shades by which the flows of a kind are told apart.

ghost use Rattle.std.specs.Prelude.{◌≡◌, ◌+◌, ◌<◌};
ghost use Rattle.frame_picture.specs.Shade.{shade_of, opacity_of, shade_rule, shade_rules, TellsShadesApart};
ghost use Rattle.text_stream.specs.Writing.{Puts};

use crate::text::put_labelled;
use text_stream::{Sink, TextBuffer, TextFault};

// How many shades there are: as many as flows may be live.
const SHADES: u32 = 64;

/// The number of a SID's shade. Two SIDs have the same one where 64 divides their difference.
pub fn shade_of(sid: u16) -> u32
    ensures { result ≡ shade_of sid }
{
    u32::from(sid) % SHADES
}

// How opaque a shade is, in hundredths.
fn opacity_of(shade: u32) -> u32
    requires { shade < 64 }
    ensures { result ≡ opacity_of shade }
{
    36 + shade * 25 % SHADES
}

// How a shade looks.
#[tactic(auto, unfolding(crate::specs::Shade::shade_rule))]
fn put_shade_rule<W: Sink>(
    lines: &mut TextBuffer,
    writer: &mut W,
    shade: u32,
) -> Result<(), TextFault>
    requires { shade < 64 }
    ensures { Puts W.contents W.has_failed writer.old writer.new lines.old lines.new
        (shade_rule shade) result }
{
    put_labelled(lines, writer, b".s", u64::from(shade))?;
    put_labelled(
        lines,
        writer,
        b"{fill-opacity:.",
        u64::from(opacity_of(shade)),
    )?;
    lines.put(writer, b"}\n")
}

// How the shades look.
pub(crate) fn put_shade_rules<W: Sink>(
    lines: &mut TextBuffer,
    writer: &mut W,
) -> Result<(), TextFault>
    ensures { Puts W.contents W.has_failed writer.old writer.new lines.old lines.new
        (shade_rules) result }
{
    for shade in 0..SHADES {
        put_shade_rule(lines, writer, shade)?;
    }
    Ok(())
}

/// No two shades look alike.
pub fn every_shade()
    ensures { TellsShadesApart }
{}
