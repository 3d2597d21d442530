//! Levels, by which amounts stand on a logarithmic axis.

ghost use Rattle.std.specs.Prelude.{◌≡◌, ◌^◌, ◌<◌, ◌≤◌};
ghost use Rattle.report_picture.specs.declared.axis.TheConstants.{WIDTH};
ghost use Rattle.report_picture.specs.Levels.{octave, level, level_place, LevelsStand};

use crate::axis::place;

// The octave of a number.
fn octave(number: u128) -> u32
    ensures value { result ≡ octave number }
    ensures near { result ≤ 127 }
{
    127u32.saturating_sub(number.leading_zeros())
}

// The level of a number, in 1024ths of an octave.
#[tactic(auto, unfolding(crate::specs::Levels::level))]
fn level(number: u128) -> u128
    requires { number < 2 ^ 108 }
    ensures value { result ≡ level number }
    ensures small { result < 2 ^ 18 }
{
    let octave = octave(number);
    1024 * u128::from(octave) + ((1024 * number) >> octave)
}

/// The place of an amount on a logarithmic axis that is so many units long, with these amounts at its ends.
pub fn level_place(long: u128, amount: u128, least: u128, most: u128) -> u128
    requires short { long ≤ WIDTH }
    requires amount { amount < 2 ^ 108 }
    requires least { least < 2 ^ 108 }
    requires most { most < 2 ^ 108 }
    ensures { result ≡ level_place long amount least most }
{
    let low = level(least);
    place(
        long,
        level(amount).saturating_sub(low),
        level(most).saturating_sub(low),
    )
}

/// A logarithmic axis begins with the least amount and ends with the greatest, no greater amount stands further left,
/// and twice an amount is an octave from it.
pub fn every_level()
    ensures { LevelsStand }
{}
