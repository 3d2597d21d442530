//! The scale of delays, and where a delay stands on it.

ghost use Rattle.std.specs.Prelude.{◌≡◌, ◌<◌, ◌^◌};
ghost use Rattle.report_picture.specs.Scale.{most_of, lesser, least_shown, least_of, start_of, scale_of, quarters};
ghost use Rattle.report_picture.specs.Scale.{scale_end, delay_place, DelaysStand};
ghost use Rattle.report_picture.specs.Course.{or_zero};

use crate::axis::place;
use crate::levels::level_place;
use sched_report::RankTold;

/// The scale of delays.
#[derive(Clone, Copy)]
pub struct Scale {
    /// The ticks of a minislot.
    pub ticks: u32,
    /// So many tenths of a millisecond are its end.
    pub tenths: u128,
    /// The delay at which it begins, in minislots, where it is logarithmic. A linear one begins at 0.
    pub start: Option<u64>,
}

// The greatest delay of some ranks.
fn most_of(ranks: &[RankTold]) -> u64
    ensures { result ≡ most_of ranks.now }
{
    let mut most = 0;
    for told in ranks {
        most = most.max(told.numbers.sums.greatest.unwrap_or(0));
    }
    most
}

// The lesser of two numbers, where 0 is none.
fn lesser(first: u64, second: u64) -> u64
    ensures { result ≡ lesser first second }
{
    if first == 0 {
        return second;
    }
    if second == 0 {
        first
    } else {
        first.min(second)
    }
}

// A number, or 0 where there is none.
fn or_zero(number: Option<u64>) -> u64
    ensures { result ≡ or_zero number }
{
    match number {
        Some(number) => number,
        None => 0,
    }
}

// The least delay above 0 of those that are shown of a rank, or 0.
fn least_shown(told: &RankTold) -> u64
    ensures { result ≡ least_shown told.now }
{
    let numbers = told.numbers;
    let low = lesser(or_zero(numbers.sums.least), or_zero(numbers.middle));
    let high = lesser(or_zero(numbers.p99), or_zero(numbers.sums.greatest));
    lesser(low, high)
}

// The least delay above 0 of those that are shown of some ranks, or 0.
fn least_of(ranks: &[RankTold]) -> u64
    ensures { result ≡ least_of ranks.now }
{
    let mut least = 0;
    for told in ranks {
        least = lesser(least, least_shown(told));
    }
    least
}

// The delay at which a logarithmic axis begins.
fn start_of(least: u64, most: u64) -> Option<u64>
    ensures { result ≡ start_of least most }
{
    if least == 0 {
        return None;
    }
    if 100 * u128::from(least) < u128::from(most) {
        return Some(least);
    }
    None
}

// The scale of the delays of some ranks, where minislots have so many ticks.
pub(crate) fn scale_of(ticks: u32, ranks: &[RankTold]) -> Scale
    ensures value { result ≡ scale_of ticks ranks.now }
    ensures small { result.tenths < 2 ^ 96 }
{
    let most = most_of(ranks);
    let tenths = (u128::from(most) * u128::from(ticks) + 15) / 16;
    let start = start_of(least_of(ranks), most);
    Scale {
        ticks,
        tenths,
        start,
    }
}

// So many minislots in quarters of a microsecond.
pub(crate) fn quarters(ticks: u32, slots: u64) -> u128
    ensures value { result ≡ quarters ticks slots }
    ensures small { result < 2 ^ 101 }
{
    u128::from(slots) * u128::from(ticks) * 25
}

// The end of a scale in them.
pub(crate) fn scale_end(scale: Scale) -> u128
    requires { scale.tenths < 2 ^ 96 }
    ensures value { result ≡ scale_end scale }
    ensures small { result < 2 ^ 105 }
{
    400 * scale.tenths
}

// Where a delay stands, in tenths of a unit.
pub(crate) fn delay_place(scale: Scale, delay: u64) -> u128
    requires { scale.tenths < 2 ^ 96 }
    ensures { result ≡ delay_place scale delay }
{
    let Some(start) = scale.start else {
        let ticks = u128::from(delay) * u128::from(scale.ticks);
        return place(6400, ticks, 16 * scale.tenths);
    };
    let amount = quarters(scale.ticks, delay);
    let least = quarters(scale.ticks, start);
    level_place(6400, amount, least, scale_end(scale))
}

/// No longer delay stands further left.
pub fn every_delay()
    ensures { DelaysStand }
{}
