//! The JSON text of a report.

ghost use Rattle.std.specs.Prelude.{◌≡◌, ◌++◌, ◌∷◌, IfOk, OnOk};
ghost use Rattle.json.specs.Token.{key};
ghost use Rattle.history_writing.specs.Tokens.{tokens_of};
ghost use Rattle.report_writing.specs.Cells.{cell_data};
ghost use Rattle.report_writing.specs.Report.{lives_data, ranks_data, report_data, IsReportText};

use crate::cell::{Cell, put_cell};
use crate::gathered::{lives_told, ranks_told};
use crate::life::put_life;
use crate::members::{put_calls, put_rank, put_refused, put_use};
use json::Writer;
use sched_report::{LifeNumbers, RankTold, Reporter, Totals};
use std::alloc::{AllocError, Global};

// Writes a number under a key.
fn put_at(out: &mut Writer, name: &str, cell: Cell) -> Result<(), AllocError>
    ensures ok { OnOk result (out.new.tokens
        ≡ out.old.tokens ++ key name.now ∷ tokens_of (cell_data cell)) }
    ensures before { out.new.before ≡ out.old.before }
{
    out.key(name)?;
    put_cell(out, cell)
}

// Writes the lives, one after the other, with their replaced requests or without.
fn put_lives(out: &mut Writer, lives: &[LifeNumbers], replaced: bool) -> Result<(), AllocError>
    ensures ok { OnOk result (out.new.tokens
        ≡ out.old.tokens ++ tokens_of (lives_data replaced lives.now)) }
    ensures before { out.new.before ≡ out.old.before }
{
    out.begin_array()?;
    for life in lives {
        put_life(out, life, replaced)?;
    }
    out.end_array()
}

// Writes the ranks, one after the other, with their replaced requests or without.
fn put_ranks(out: &mut Writer, ranks: &[RankTold], replaced: bool) -> Result<(), AllocError>
    ensures ok { OnOk result (out.new.tokens
        ≡ out.old.tokens ++ tokens_of (ranks_data replaced ranks.now)) }
    ensures before { out.new.before ≡ out.old.before }
{
    out.begin_array()?;
    for told in ranks {
        put_rank(out, told, replaced)?;
    }
    out.end_array()
}

// Writes a report.
#[tactic(auto, unfolding(crate::specs::Report::report_data))]
fn put_report(
    out: &mut Writer,
    totals: &Totals,
    refused: &[u64],
    lives: &[LifeNumbers],
    ranks: &[RankTold],
) -> Result<(), AllocError>
    ensures ok { OnOk result (out.new.tokens
        ≡ out.old.tokens ++ tokens_of (report_data totals.now refused.now lives.now ranks.now)) }
    ensures before { out.new.before ≡ out.old.before }
{
    let replaced = totals.replaces > 0;
    out.begin_object()?;
    out.key("calls")?;
    put_calls(out, &totals.calls)?;
    put_at(out, "frames", Cell::Count(totals.frames as u128))?;
    put_at(out, "from", Cell::Maybe(totals.from))?;
    out.key("lives")?;
    put_lives(out, lives, replaced)?;
    out.key("priorities")?;
    put_ranks(out, ranks, replaced)?;
    out.key("refused")?;
    put_refused(out, refused)?;
    put_at(out, "skips", Cell::Count(totals.skips as u128))?;
    put_at(out, "to", Cell::Maybe(totals.to))?;
    out.key("use")?;
    put_use(out, &totals.slots, totals.opens)?;
    out.end_object()
}

/// The report on the entries that were taken as JSON without spaces, keys in ascending order, and one newline.
pub fn json_text(alloc: Global, reporter: &Reporter) -> Result<Vec<u8>, AllocError>
    ensures { IfOk result (λ text.
        IsReportText reporter.now text.items) }
{
    let lives = lives_told(alloc, reporter)?;
    let ranks = ranks_told(alloc, reporter)?;
    let totals = reporter.totals();
    let mut out = Writer::new(Vec::new(alloc));
    put_report(&mut out, &totals, reporter.refused(), &lives, &ranks)?;
    let mut text = out.into_inner();
    text.push(b'\n')?;
    Ok(text)
}
