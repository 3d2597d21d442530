//! The lives of flows with a ceiling, and how often they waited at it.

ghost use Rattle.std.specs.Prelude.{◌≡◌};
ghost use Rattle.std.specs.List.{list_any};
ghost use Rattle.report_writing.specs.Held.{has_ceiling, held_of};

use crate::members::told_if;
use sched_report::LifeNumbers;

// Whether the flow of a life has a maximum sustained rate or a peak rate, by the parameters that it had last.
fn has_ceiling(life: &LifeNumbers) -> bool
    ensures { result ≡ has_ceiling life.now }
{
    life.spec.rate() > 0 || life.spec.peak() > 0
}

// At how many starts of MAPs it waited while one of them had no room, where it has one.
pub(crate) fn held_of(life: &LifeNumbers) -> Option<u128>
    ensures { result ≡ held_of life.now }
{
    told_if(has_ceiling(life), u128::from(life.held))
}

// Whether there is a life of a flow that has one.
pub(crate) fn is_any_held(lives: &[LifeNumbers]) -> bool
    ensures { result ≡ list_any has_ceiling lives.now }
{
    lives.iter().any(has_ceiling)
}
