//! What the entries before one tell of it.

ghost use Rattle.std.specs.Prelude.{IfOk, OnErr};
ghost use Rattle.sched_history.specs.History.{IsStep};
ghost use Rattle.sched_history.specs.Machine.{MayLackMemory};
ghost use Rattle.sched_report.specs.Outlook.{IsOutlook};

use crate::lags::RECEIVERS;
use crate::waits::{Waiters, who_waits};
use sched_history::{Auditor, Entry, Met};
use std::alloc::AllocError;

// What the entries before one tell of it.
#[derive(Drop)]
pub(crate) struct Outlook {
    // The opportunities that its MAP meets.
    pub(crate) met: Vec<Met>,
    // Who waits where its MAP starts.
    pub(crate) waiters: Waiters,
    // How far the receivers are.
    pub(crate) heard: [u64; RECEIVERS],
    // How many Reserves are open.
    pub(crate) reserves: u64,
}

// What the entries that an auditor took tell of one whose reply may follow them.
pub(crate) fn outlook_of(auditor: &Auditor, entry: &Entry) -> Result<Outlook, AllocError>
    ensures tells { IfOk result (λ outlook.
        IsStep auditor.now.config auditor.now.history entry.now.call entry.now.reply
        → IsOutlook auditor.now.config auditor.now.history entry.now.reply outlook) }
    ensures memory { OnErr result
        (MayLackMemory auditor.now.config auditor.now.history entry.now.call) }
{
    let met = auditor.met(entry)?;
    let waiters = who_waits(auditor, entry)?;
    let heard = auditor.progress();
    let reserves = auditor.open_reserves();
    Ok(Outlook {
        met,
        waiters,
        heard,
        reserves,
    })
}
