//! The text of a report: tables that are 80 columns wide at most.

ghost use Rattle.std.specs.Prelude.{◌≡◌, IfOk};
ghost use Rattle.report_writing.specs.Text.{IsReportTables};

mod flows;
mod lives;
mod ranks;
mod refused;
mod reserved;
mod uses;

use crate::gathered::{lives_told, ranks_told};
use crate::reserved::keep_reserved;
use flows::{order_lives, push_flows};
use minislots::Checked;
use ranks::push_ranks;
use refused::push_refused;
use reserved::push_reserved;
use sched_report::Reporter;
use std::alloc::{AllocError, Global};
use uses::{push_head, push_uses};

/// The report on the entries that were taken as tables, under the configuration of the reporter. It has the lives of
/// all flows in the order of their admissions, or else of the 30 that asked most.
pub fn report_text(
    alloc: Global,
    config: &Checked,
    reporter: &Reporter,
    all: bool,
) -> Result<Vec<u8>, AllocError>
    requires { config.now ≡ reporter.now.config }
    ensures { IfOk result (λ text.
        IsReportTables all reporter.now text.items) }
{
    let ticks = config.ticks();
    let mut lives = lives_told(alloc, reporter)?;
    order_lives(&mut lives, all)?;
    let ranks = ranks_told(alloc, reporter)?;
    let totals = reporter.totals();
    let replaced = totals.replaces > 0;
    let mut words = Vec::new(alloc);
    push_head(&mut words, ticks, &totals)?;
    push_uses(&mut words, totals.opens, &totals.slots, &totals.calls)?;
    push_refused(&mut words, reporter.refused())?;
    push_ranks(&mut words, ticks, replaced, &ranks)?;
    push_flows(&mut words, ticks, replaced, &lives, all)?;
    keep_reserved(&mut lives);
    push_reserved(&mut words, config.frame(), &lives, all)?;
    Ok(words)
}
