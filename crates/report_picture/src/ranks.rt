//! The numbers of the ranks that asked.

ghost use Rattle.std.specs.Prelude.{◌≤◌, length};
ghost use Rattle.sched_report.specs.RanksTold.{AreRanksTold};

use crate::few::Few;
use sched_report::{RANKS, RankNumbers, RankSums, RankTold, Reporter};

// A rank of no numbers.
pub(crate) const NO_RANK: RankTold = RankTold {
    rank: 0,
    numbers: RankNumbers {
        sums: RankSums {
            asks: 0,
            granted: 0,
            waiting: 0,
            dropped: 0,
            replaced: 0,
            served: 0,
            least: None,
            greatest: None,
        },
        middle: None,
        p99: None,
    },
};

// The numbers of each rank that asked, from the one that is served first on.
pub(crate) fn ranks_told(reporter: &Reporter) -> Few<RankTold, 9>
    ensures told { AreRanksTold reporter.now result }
    ensures most { length result ≤ 9 }
{
    let mut ranks = Few::none(NO_RANK);
    for index in 0..RANKS.len() {
        let rank = RANKS[index];
        let numbers = reporter.rank(rank);
        if numbers.sums.asks > 0 {
            ranks.push(RankTold { rank, numbers });
        }
    }
    ranks
}
