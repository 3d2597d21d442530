//! The numbers of a report, gathered from a reporter.

ghost use Rattle.std.specs.Prelude.{IfOk};
ghost use Rattle.sched_report.specs.RanksTold.{AreRanksTold};
ghost use Rattle.report_writing.specs.Gathered.{AreLivesTold, AreFew};

use sched_report::{LifeNumbers, RANKS, RankTold, Reporter};
use std::alloc::{AllocError, Global};

// The numbers of each life that is told of, in the order of the admissions.
pub(crate) fn lives_told(alloc: Global, reporter: &Reporter) -> Result<Vec<LifeNumbers>, AllocError>
    ensures told { IfOk result (λ lives.
        AreLivesTold reporter.now lives.items) }
    ensures few { IfOk result (λ lives. AreFew lives.items) }
{
    let mut lives = Vec::new(alloc);
    for place in 0..reporter.lives() {
        if reporter.is_told(place) {
            lives.push(reporter.life(place))?;
        }
    }
    Ok(lives)
}

// The numbers of each rank that asked, from the one that is served first on.
pub(crate) fn ranks_told(alloc: Global, reporter: &Reporter) -> Result<Vec<RankTold>, AllocError>
    ensures { IfOk result (λ ranks.
        AreRanksTold reporter.now ranks.items) }
{
    let mut ranks = Vec::new(alloc);
    for index in 0..RANKS.len() {
        let rank = RANKS[index];
        let numbers = reporter.rank(rank);
        if numbers.sums.asks > 0 {
            ranks.push(RankTold { rank, numbers })?;
        }
    }
    Ok(ranks)
}
