//! The delays that so many in a hundred do not exceed, of some lives together.

ghost use Rattle.std.specs.Prelude.{◌≡◌, ◌*◌, ◌+◌, ◌<◌, ◌≤◌, ◌^◌, ◌∷◌, [], List, ℕ, length, true, false};
ghost use Rattle.minislots.specs.declared.config.Config.{Config};
ghost use Rattle.sched_report.specs.Delays.{greatest_of};
ghost use Rattle.sched_report.specs.Spread.{count_upto, TellsPercentile};
ghost use Rattle.sched_report.specs.Steps.{CountsUpto, IsBelow};
ghost use Rattle.sched_report.specs.Lives.{PastLife};
ghost use Rattle.sched_report.specs.Ranks.{chosen, delays_in_all};
ghost use Rattle.sched_report.specs.Told.{IsLifeOf};
ghost use Rattle.sched_report.specs.ToldLives.{AreLives};

use crate::life::LifeTally;

// The delay that so many in a hundred do not exceed, among those of the lives of a rank, or of all lives. There are so
// many of them, and this is the greatest.
pub(crate) fn percentile(
    lives: &[LifeTally],
    rank: Option<u8>,
    percent: u64,
    served: u128,
    greatest: Option<u64>,
) -> Option<u64>
    requires lives { (c : Config) × (ls : List PastLife) × AreLives c lives.now ls
        × (served ≤ 2 ^ 108) }
    requires percent { percent ≤ 100 }
    requires served { (c : Config) (ls : List PastLife) → AreLives c lives.now ls
        → served ≡ length (delays_in_all c (chosen rank ls)) }
    requires greatest { (c : Config) (ls : List PastLife) → AreLives c lives.now ls
        → greatest ≡ greatest_of (delays_in_all c (chosen rank ls)) }
    ensures { (c : Config) (ls : List PastLife) → AreLives c lives.now ls
        → TellsPercentile percent (delays_in_all c (chosen rank ls)) result }
{
    let wanted = u128::from(percent) * served;
    match greatest {
        Some(greatest) => Some(search(lives, rank, wanted, greatest)),
        None => None,
    }
}

// The least delay that enough do not exceed, where enough do not exceed the greatest: so many in a hundred of so many.
fn search(lives: &[LifeTally], rank: Option<u8>, wanted: u128, greatest: u64) -> u64
    requires lives { (c : Config) × (ls : List PastLife) × AreLives c lives.now ls }
    requires enough { (c : Config) (ls : List PastLife) → AreLives c lives.now ls
        → wanted ≤ 100 * count_upto greatest (delays_in_all c (chosen rank ls)) }
    ensures enough { (c : Config) (ls : List PastLife) → AreLives c lives.now ls
        → wanted ≤ 100 * count_upto result (delays_in_all c (chosen rank ls)) }
    ensures least { (c : Config) (ls : List PastLife) → AreLives c lives.now ls
        → (n : ℕ) → IsBelow n result
        → 100 * count_upto n (delays_in_all c (chosen rank ls)) < wanted }
{
    let mut least = 0;
    let mut most = greatest;
    while least < most {
        let half = least + (most - least) / 2;
        if are_enough(lives, rank, wanted, half) {
            most = half;
        } else {
            least = half + 1;
        }
    }
    most
}

// Whether enough do not exceed a delay.
fn are_enough(lives: &[LifeTally], rank: Option<u8>, wanted: u128, delay: u64) -> bool
    requires { (c : Config) × (ls : List PastLife) × AreLives c lives.now ls }
    ensures yes { result ≡ true → (c : Config) (ls : List PastLife) → AreLives c lives.now ls
        → wanted ≤ 100 * count_upto delay (delays_in_all c (chosen rank ls)) }
    ensures no { result ≡ false → (c : Config) (ls : List PastLife) → AreLives c lives.now ls
        → (n : ℕ) → IsBelow n (delay + 1)
        → 100 * count_upto n (delays_in_all c (chosen rank ls)) < wanted }
{
    wanted <= 100 * upto(lives, rank, delay)
}

// How many delays there are of which no more than this is told.
fn upto(lives: &[LifeTally], rank: Option<u8>, delay: u64) -> u128
    requires { (c : Config) × (ls : List PastLife) × AreLives c lives.now ls }
    ensures counts { (c : Config) (ls : List PastLife) → AreLives c lives.now ls
        → CountsUpto delay result (delays_in_all c (chosen rank ls)) }
    ensures few { result ≤ 2 ^ 44 * length lives.now }
{
    let mut count = 0;
    for life in lives {
        count += u128::from(upto_of(life, rank, delay));
    }
    count
}

// Those of a life, or none where it is not of the rank.
fn upto_of(life: &LifeTally, rank: Option<u8>, delay: u64) -> u64
    requires { (c : Config) × (l : PastLife) × IsLifeOf c life.now l }
    ensures counts { (c : Config) (l : PastLife) → IsLifeOf c life.now l
        → CountsUpto delay result (delays_in_all c (chosen rank (l ∷ []))) }
    ensures few { result ≤ 2 ^ 44 }
{
    if life.is_chosen(rank) {
        life.upto(delay)
    } else {
        0
    }
}
