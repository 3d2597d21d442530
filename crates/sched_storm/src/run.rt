//! A storm from its script to the lines of its tally.

ghost use Rattle.std.specs.Prelude.{◌≡◌, ◌↔◌, true, None, IfOk, IfErr};
ghost use Rattle.text_stream.specs.RunFault.{TellsFailedRead, TellsFailedWrite, WritesLast};
ghost use Rattle.sched_storm.specs.StormRun.{Stormed, StopsStorm};

use crate::gate::Gate;
use crate::lines::put_tally;
use crate::starts::Starts;
use crate::storm::storm_with;
use crate::tally::{StormFault, Tally};
use script_reading::read_storm;
use std::alloc::Global;
use std::sync::Wait;
use text_stream::{RunFault, Sink, Source, TextFault};

// Whether no worker was held and the history is legal.
fn went_well(tally: &Tally) -> bool
    ensures { (result ≡ true) ↔ ((tally.now.held ≡ None) × (tally.now.legal ≡ true)) }
{
    tally.held.is_none() && tally.legal
}

/// Reads a script of a storm, a configuration and 1 to 16 scripts in JSON, to the reader's end, runs the scripts
/// at the same time, and writes the lines of their tally: one for each seat with its number and its count, then
/// the number of calls that were not recorded, that of the MAPs, the version that was read last, the least of the
/// workers that the gate held, if any, and what the audit says. Answers whether no worker was held and the history is
/// legal. Nothing is written before another fault than one of output.
pub fn run_storm<R: Starts + Wait + Sync, I: Source, W: Sink, G: Gate>(
    rt: &R,
    alloc: Global,
    reader: &mut I,
    writer: &mut W,
    gate: &G,
) -> Result<bool, RunFault>
    // What was written is the lines of a tally of the scripts that were read, under this gate, and nothing else.
    ensures ok { IfOk result
        (Stormed (G.lets_pass gate.now) (G.holds_back gate.now) (I.remaining reader.old)
        (I.remaining reader.new) (W.contents writer.old) (W.contents writer.new)) }

    // Each fault comes under its own condition, the first one in their order.
    ensures stops { IfErr result (StopsStorm (I.remaining reader.old) (I.remaining reader.new)) }
    ensures quiet { WritesLast result writer.old writer.new }
    ensures no_thread { IfErr result (λ e. e ≡ RunFault.Threads → R.lacks_thread) }

    // A failed read or write is told where one has failed, and where all went well none did.
    ensures failed_read { TellsFailedRead result
        (I.has_failed reader.old) (I.has_failed reader.new) }
    ensures failed_write { TellsFailedWrite result
        (W.has_failed writer.old) (W.has_failed writer.new) }
{
    let (config, scripts) = read_storm(alloc, reader)?;
    let workers = scripts.len();
    let tally = match storm_with(rt, alloc, config, scripts, gate) {
        Ok(tally) => tally,
        Err(StormFault::Threads) => return Err(RunFault::Threads),
        Err(StormFault::Memory) => return Err(RunFault::Text(TextFault::Memory)),
        // The number of scripts was tested as they were read.
        Err(StormFault::ScriptCount) => unreachable!(),
    };
    put_tally(writer, workers, &tally)?;
    Ok(went_well(&tally))
}
