//! The numbers of the lives of a rank together.

ghost use Rattle.std.specs.Prelude.{◌≡◌, ◌<◌, ◌≤◌, ◌++◌, ◌∷◌, ◌^◌, ◌+◌, ◌*◌, [], List, ℕ, length, true};
ghost use Rattle.minislots.specs.declared.config.Config.{Config};
ghost use Rattle.sched_calls.specs.FlowSpec.{takes_requests};
ghost use Rattle.sched_report.specs.Lives.{PastLife, spec_of};
ghost use Rattle.sched_report.specs.Ranks.{lives_of_rank, AreRankSums, AreRankNumbers, AreFew};
ghost use Rattle.sched_report.specs.Ranks.{both_least, both_greatest};
ghost use Rattle.sched_report.specs.Told.{IsLifeOf};
ghost use Rattle.sched_report.specs.ToldLives.{AreLives};

use crate::life::LifeTally;
use crate::percentiles::percentile;

/// The sums over the lives of a rank.
#[derive(Clone, Copy)]
pub struct RankSums {
    /// How many requests there were.
    pub asks: u128,
    /// The bytes of the data grants.
    pub granted: u128,
    /// How many requests wait.
    pub waiting: u128,
    /// How many requests waited when their life ended.
    pub dropped: u128,
    /// How many requests were replaced: superseded by a later one before all their bytes were granted.
    pub replaced: u128,
    /// How many requests were served.
    pub served: u128,
    /// The least of their delays, in minislots.
    pub least: Option<u64>,
    /// The greatest of their delays.
    pub greatest: Option<u64>,
}

/// The numbers of a rank.
#[derive(Clone, Copy)]
pub struct RankNumbers {
    /// The sums over its lives.
    pub sums: RankSums,
    /// The delay that 50 in a hundred of the requests that were served do not exceed: up to [`EXACT`](crate::EXACT)
    /// minislots exactly, and above that at most one part in a hundred too much.
    pub middle: Option<u64>,
    /// That of 99 in a hundred.
    pub p99: Option<u64>,
}

impl RankSums {
    // Those of no life.
    fn none() -> RankSums
        ensures sums { (c : Config) → AreRankSums c result [] }
        ensures few { AreFew result 0 }
    {
        RankSums {
            asks: 0,
            granted: 0,
            waiting: 0,
            dropped: 0,
            replaced: 0,
            served: 0,
            least: None,
            greatest: None,
        }
    }

    // Adds those of a life, where it is of the rank.
    fn add_of(&mut self, rank: u8, life: &LifeTally)
        requires few { (n : ℕ) × AreFew self.old n × (n < 2 ^ 64) }
        requires life { (c : Config) × (l : PastLife) × IsLifeOf c life.now l }
        ensures sums { (c : Config) (ls : List PastLife) (l : PastLife) → IsLifeOf c life.now l
            → AreRankSums c self.old ls
            → AreRankSums c self.new (ls ++ lives_of_rank rank (l ∷ [])) }
        ensures few { (n : ℕ) → AreFew self.old n → AreFew self.new (n + 1) }
    {
        if !life.is_chosen(Some(rank)) {
            return;
        }
        self.add(life);
    }

    // Adds those of a life that may have requests.
    fn add(&mut self, life: &LifeTally)
        requires few { (n : ℕ) × AreFew self.old n × (n < 2 ^ 64) }
        requires life { (c : Config) × (l : PastLife) × IsLifeOf c life.now l }
        ensures sums { (c : Config) (ls : List PastLife) (l : PastLife) → IsLifeOf c life.now l
            → takes_requests (spec_of l) ≡ true → AreRankSums c self.old ls
            → AreRankSums c self.new (ls ++ l ∷ []) }
        ensures few { (n : ℕ) → AreFew self.old n → AreFew self.new (n + 1) }
    {
        let sums = life.sums();
        self.asks += u128::from(sums.asks);
        self.granted += u128::from(sums.granted);
        self.waiting += u128::from(life.waiting());
        self.dropped += u128::from(life.dropped());
        self.replaced += u128::from(sums.replaced);
        self.served += u128::from(sums.delays.served);
        self.least = both_least(self.least, sums.delays.least);
        self.greatest = both_greatest(self.greatest, sums.delays.greatest);
    }
}

// The least of two, where there are two.
fn both_least(a: Option<u64>, b: Option<u64>) -> Option<u64>
    ensures { result ≡ both_least a b }
{
    match (a, b) {
        (Some(a), Some(b)) => Some(a.min(b)),
        (Some(a), None) => Some(a),
        (None, b) => b,
    }
}

// The greatest of two, where there are two.
fn both_greatest(a: Option<u64>, b: Option<u64>) -> Option<u64>
    ensures { result ≡ both_greatest a b }
{
    match (a, b) {
        (Some(a), Some(b)) => Some(a.max(b)),
        (Some(a), None) => Some(a),
        (None, b) => b,
    }
}

// The sums over the lives of a rank.
fn sums_of(lives: &[LifeTally], rank: u8) -> RankSums
    requires { (c : Config) × (ls : List PastLife) × AreLives c lives.now ls }
    ensures few { result.served ≤ 2 ^ 44 * length lives.now }
    ensures sums { (c : Config) (ls : List PastLife) → AreLives c lives.now ls
        → AreRankSums c result (lives_of_rank rank ls) }
{
    let mut sums = RankSums::none();
    for life in lives {
        sums.add_of(rank, life);
    }
    sums
}

// The numbers of a rank.
pub(crate) fn numbers_of(lives: &[LifeTally], rank: u8) -> RankNumbers
    requires { (c : Config) × (ls : List PastLife) × AreLives c lives.now ls }
    ensures { (c : Config) (ls : List PastLife) → AreLives c lives.now ls
        → AreRankNumbers c result (lives_of_rank rank ls) }
{
    let sums = sums_of(lives, rank);
    RankNumbers {
        sums,
        middle: percentile(lives, Some(rank), 50, sums.served, sums.greatest),
        p99: percentile(lives, Some(rank), 99, sums.served, sums.greatest),
    }
}
