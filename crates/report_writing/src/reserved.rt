//! The lives of flows with a minimum reserved rate, and how often they waited under it.

ghost use Rattle.std.specs.Prelude.{◌≡◌};
ghost use Rattle.std.specs.List.{list_any};
ghost use Rattle.report_writing.specs.Gathered.{AreFew};
ghost use Rattle.report_writing.specs.Reserved.{has_reservation, under_of, with_reservation};

use crate::members::told_if;
use sched_report::LifeNumbers;

// Whether the flow of a life has a minimum reserved rate, by the parameters that it had last.
fn has_reservation(life: &LifeNumbers) -> bool
    ensures { result ≡ has_reservation life.now }
{
    life.spec.reserved() > 0
}

// At how many starts of MAPs it waited under that rate, where it has one.
pub(crate) fn under_of(life: &LifeNumbers) -> Option<u128>
    ensures { result ≡ under_of life.now }
{
    told_if(has_reservation(life), u128::from(life.under))
}

// Whether there is a life of a flow that has one.
pub(crate) fn is_any_reserved(lives: &[LifeNumbers]) -> bool
    ensures { result ≡ list_any has_reservation lives.now }
{
    lives.iter().any(has_reservation)
}

// Leaves of these lives those of flows that have one.
pub(crate) fn keep_reserved(lives: &mut Vec<LifeNumbers>)
    requires { AreFew lives.old.items }
    ensures kept { lives.new.items ≡ with_reservation lives.old.items }
    ensures few { AreFew lives.new.items }
{
    lives.retain(has_reservation);
}
