//! What a storm tells, and why there is none.

ghost use Rattle.std.specs.Prelude.{◌≡◌, ◌≤◌, ◌↔◌, true, [], ◌∷◌, length, IfOk, IfErr};
ghost use Rattle.sched_history.specs.Facts.{maps_of};
ghost use Rattle.sched_history.specs.History.{IsLegal};

use minislots::Checked;
use sched_history::{AuditFault, Entry, Reply, audit};
use std::alloc::Global;
use thiserror::Error;
use ticket_core::MAX_SEATS;

/// What a storm made.
#[derive(Drop)]
pub struct Tally {
    /// The calls that were recorded, with their replies, in the order of their tickets.
    pub history: Vec<Entry>,
    /// How many of them each worker made.
    pub counts: [u64; MAX_SEATS],
    /// How many calls were made and not recorded.
    pub unrecorded: u64,
    /// How many MAPs the history has.
    pub maps: u64,
    /// The version that one reader, told of all that was published, reads at the end, if any.
    pub newest: Option<u64>,
    /// Whether an audit finds the history legal.
    pub legal: bool,
    /// The least of the workers that their gates held, if any.
    pub held: Option<usize>,
}

/// Why there is no tally.
#[derive(Clone, Copy, Debug, PartialEq, Eq, Drop, Error)]
pub enum StormFault {
    /// The number of scripts is not from 1 to 16.
    #[error("a storm has 1 to 16 scripts")]
    ScriptCount,
    /// A thread was not started.
    #[error("no thread")]
    Threads,
    /// There was no memory for the scheduler, its seats, its reader, the workers or the audit of the history.
    #[error("out of memory")]
    Memory,
}

// How many MAPs an entry has.
fn count_map(entry: &Entry) -> u64
    ensures { result ≡ length (maps_of (entry.now ∷ [])) }
{
    match entry.reply {
        Reply::Built(_) => 1,
        _ => 0,
    }
}

/// How many MAPs a history has.
pub fn count_maps(history: &[Entry]) -> u64
    ensures { result ≡ length (maps_of history.now) }
{
    let mut maps = 0;
    for entry in history {
        maps += count_map(entry);
    }
    maps
}

/// Whether an audit finds a history legal, which has no more entries than its configuration records.
pub fn is_legal(alloc: Global, checked: &Checked, history: &[Entry]) -> Result<bool, StormFault>
    requires within { length history.now ≤ checked.now.calls }
    ensures ok { IfOk result (λ legal. (legal ≡ true) ↔ IsLegal checked.now history.now) }
    ensures err { IfErr result (λ fault. fault ≡ StormFault.Memory) }
{
    // So it is short enough for an audit.
    if history.len() > checked.calls() as usize {
        unreachable!()
    }
    match audit(alloc, checked, history) {
        Ok(()) => Ok(true),
        Err(AuditFault::Illegal(_)) => Ok(false),
        Err(AuditFault::Memory) => Err(StormFault::Memory),
    }
}
