//! What each look of the use of minislots is for.

ghost use Rattle.std.specs.Prelude.{◌≡◌, ◌<◌, ◌^◌};
ghost use Rattle.sched_report.specs.Uses.{all_slots};
ghost use Rattle.report_picture.specs.Head.{key_text, first_keys, last_keys, open_key};
ghost use Rattle.text_stream.specs.Writing.{Puts};

use crate::axis::place;
use crate::filled::put_filled;
use sched_report::{Slots, Totals};
use text_stream::{Sink, TextBuffer, TextFault};

// The minislots of all uses together.
pub(crate) fn all_slots(slots: &Slots) -> u128
    ensures { result ≡ all_slots slots.now }
{
    u128::from(slots.data_grants)
        + u128::from(slots.idle)
        + u128::from(slots.open_idle)
        + u128::from(slots.opportunity)
        + u128::from(slots.poll)
        + u128::from(slots.request)
        + u128::from(slots.unsolicited)
}

// A key of the legend: a look, and how many in a thousand of all minislots have it, rounded to the nearest.
fn put_key<W: Sink>(
    lines: &mut TextBuffer,
    writer: &mut W,
    template: &[u8],
    part: u64,
    all: u128,
) -> Result<(), TextFault>
    ensures { Puts W.contents W.has_failed writer.old writer.new lines.old lines.new
        (key_text template.now part all) result }
{
    let twice = place(2000, u128::from(part), all);
    put_filled(lines, writer, template, &[(twice + 1) / 2])
}

// The keys of minislots in which modems may ask, and of unsolicited grants.
#[tactic(auto, unfolding(crate::specs::Head::first_keys))]
pub(crate) fn put_first_keys<W: Sink>(
    lines: &mut TextBuffer,
    writer: &mut W,
    slots: &Slots,
) -> Result<(), TextFault>
    ensures { Puts W.contents W.has_failed writer.old writer.new lines.old lines.new
        (first_keys slots.now) result }
{
    let all = all_slots(slots);
    let request =
        b"<path class='key request' d='M96 60h28v16h-28z'/><text x='132' y='73'>request region ~ %</text>\n";
    put_key(lines, writer, request, slots.request, all)?;
    let poll =
        b"<path class='key poll' d='M290 60h28v16h-28z'/><text x='326' y='73'>polls ~ %</text>\n";
    put_key(lines, writer, poll, slots.poll, all)?;
    let unsolicited =
        b"<path class='key unsolicited' d='M420 60h28v16h-28z'/><text x='456' y='73'>unsolicited ~ %</text>\n";
    put_key(lines, writer, unsolicited, slots.unsolicited, all)
}

// The others.
#[tactic(auto, unfolding(crate::specs::Head::last_keys))]
pub(crate) fn put_last_keys<W: Sink>(
    lines: &mut TextBuffer,
    writer: &mut W,
    slots: &Slots,
) -> Result<(), TextFault>
    ensures { Puts W.contents W.has_failed writer.old writer.new lines.old lines.new
        (last_keys slots.now) result }
{
    let all = all_slots(slots);
    let opportunity =
        b"<path class='key opportunity' d='M590 60h28v16h-28z'/><text x='626' y='73'>opportunities ~ %</text>\n";
    put_key(lines, writer, opportunity, slots.opportunity, all)?;
    let data =
        b"<path class='key data' d='M836 60h28v16h-28z'/><text x='872' y='73'>data grants ~ %</text>\n";
    put_key(lines, writer, data, slots.data_grants, all)?;
    let idle =
        b"<path class='key idle' d='M1020 60h28v16h-28z'/><text x='1056' y='73'>idle ~ %</text>\n";
    put_key(lines, writer, idle, slots.idle, all)
}

// The key of open idles, where idles are open.
#[tactic(auto, unfolding(crate::specs::Head::open_key))]
pub(crate) fn put_open_key<W: Sink>(
    lines: &mut TextBuffer,
    writer: &mut W,
    totals: &Totals,
) -> Result<(), TextFault>
    ensures { Puts W.contents W.has_failed writer.old writer.new lines.old lines.new
        (open_key totals.now) result }
{
    if !totals.opens {
        return Ok(());
    }
    let all = all_slots(&totals.slots);
    lines.put(writer, b"<style>.open{fill:#b39ddb}</style>")?;
    let open_idle =
        b"<path class='key open' d='M1140 60h28v16h-28z'/><text x='1176' y='73'>open idle ~ %</text>\n";
    put_key(lines, writer, open_idle, totals.slots.open_idle, all)
}
