//! The rows of ranks: how many requests, and how their delays are spread.

ghost use Rattle.std.specs.Prelude.{◌≡◌, ◌<◌, ◌≤◌, ◌^◌, length};
ghost use Rattle.report_picture.specs.Delays.{rank_text, unserved_text, counts_text, row_text, rows_text, no_rows_text};
ghost use Rattle.text_stream.specs.Writing.{Puts};

use crate::filled::put_filled;
use crate::scale::Scale;
use crate::spread::{put_spread, spread_with};
use sched_report::{POLLED, RankSums, RankTold};
use text_stream::{Sink, TextBuffer, TextFault};

// The name of a rank.
#[tactic(auto, unfolding(crate::specs::Delays::rank_text))]
fn put_rank<W: Sink>(lines: &mut TextBuffer, writer: &mut W, rank: u8) -> Result<(), TextFault>
    ensures { Puts W.contents W.has_failed writer.old writer.new lines.old lines.new
        (rank_text rank) result }
{
    if rank == POLLED {
        return lines.put(writer, b"<text class='end' x='-8' y='20'>polled</text>");
    }
    let template = b"<text class='end' x='-8' y='20'>priority @</text>";
    put_filled(lines, writer, template, &[u128::from(rank)])
}

// How many requests of a rank wait, were dropped and, where that is told, were replaced.
#[tactic(auto, unfolding(crate::specs::Delays::unserved_text))]
fn put_unserved<W: Sink>(
    lines: &mut TextBuffer,
    writer: &mut W,
    replaced: bool,
    sums: &RankSums,
) -> Result<(), TextFault>
    ensures { Puts W.contents W.has_failed writer.old writer.new lines.old lines.new
        (unserved_text replaced sums.now) result }
{
    if !replaced {
        return put_filled(
            lines,
            writer,
            b"<text class='end' x='1194' y='20'>@</text><text class='end' x='1284' y='20'>@</text>\n",
            &[sums.waiting, sums.dropped],
        );
    }
    put_filled(
        lines,
        writer,
        b"<text class='end' x='1164' y='20'>@</text><text class='end' x='1224' y='20'>@</text>",
        &[sums.waiting, sums.dropped],
    )?;
    let template = b"<text class='end' x='1284' y='20'>@</text>\n";
    put_filled(lines, writer, template, &[sums.replaced])
}

// How many were served, and the others.
#[tactic(auto, unfolding(crate::specs::Delays::counts_text))]
fn put_counts<W: Sink>(
    lines: &mut TextBuffer,
    writer: &mut W,
    replaced: bool,
    sums: &RankSums,
) -> Result<(), TextFault>
    ensures { Puts W.contents W.has_failed writer.old writer.new lines.old lines.new
        (counts_text replaced sums.now) result }
{
    let template = b"<text class='end' x='724' y='20'>@</text>";
    put_filled(lines, writer, template, &[sums.served])?;
    put_unserved(lines, writer, replaced, sums)
}

// The row of a rank: its name, how many of its requests were served, wait, were dropped and were replaced, and their
// delays.
#[tactic(auto, unfolding(crate::specs::Delays::row_text))]
fn put_row<W: Sink>(
    lines: &mut TextBuffer,
    writer: &mut W,
    scale: Scale,
    replaced: bool,
    ranks: &[RankTold],
    i: usize,
) -> Result<(), TextFault>
    requires small { scale.tenths < 2 ^ 96 }
    requires inside { i < length ranks.now }
    requires few { length ranks.now ≤ 9 }
    ensures { Puts W.contents W.has_failed writer.old writer.new lines.old lines.new
        (row_text scale replaced ranks.now i) result }
{
    let told = ranks[i];
    let sums = told.numbers.sums;
    let spread = spread_with(
        sums.least,
        told.numbers.middle,
        told.numbers.p99,
        sums.greatest,
    );
    put_filled(
        lines,
        writer,
        b"<g transform='translate(0 @)'>",
        &[32 * i as u128],
    )?;
    put_rank(lines, writer, told.rank)?;
    put_counts(lines, writer, replaced, &sums)?;
    put_spread(lines, writer, scale, spread)?;
    lines.put(writer, b"</g>\n")
}

// The rows of ranks, one below the other.
pub(crate) fn put_rows<W: Sink>(
    lines: &mut TextBuffer,
    writer: &mut W,
    scale: Scale,
    replaced: bool,
    ranks: &[RankTold],
) -> Result<(), TextFault>
    requires small { scale.tenths < 2 ^ 96 }
    requires few { length ranks.now ≤ 9 }
    ensures { Puts W.contents W.has_failed writer.old writer.new lines.old lines.new
        (rows_text scale replaced ranks.now) result }
{
    for i in 0..ranks.len() {
        put_row(lines, writer, scale, replaced, ranks, i)?;
    }
    Ok(())
}

// What stands in the place of rows where no rank has any.
#[tactic(auto, unfolding(crate::specs::Delays::no_rows_text))]
pub(crate) fn put_no_rows<W: Sink>(
    lines: &mut TextBuffer,
    writer: &mut W,
    rows: usize,
) -> Result<(), TextFault>
    ensures { Puts W.contents W.has_failed writer.old writer.new lines.old lines.new
        (no_rows_text rows) result }
{
    if rows == 0 {
        return lines.put(
            writer,
            b"<text class='head' x='0' y='20'>No request was accepted, so there is no delay.</text>\n",
        );
    }
    Ok(())
}
