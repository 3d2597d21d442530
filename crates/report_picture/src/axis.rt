//! Places along an axis, and the round numbers at its ticks.

ghost use Rattle.std.specs.Prelude.{◌≡◌, ◌*◌, ◌^◌, ◌<◌, ◌≤◌};
ghost use Rattle.report_picture.specs.declared.axis.TheConstants.{WIDTH};
ghost use Rattle.report_picture.specs.Axis.{place, first_enough, round_step, microseconds};

/// The round numbers.
pub const ROUND: [u64; 58] = [
    1,
    2,
    5,
    10,
    20,
    50,
    100,
    200,
    500,
    1_000,
    2_000,
    5_000,
    10_000,
    20_000,
    50_000,
    100_000,
    200_000,
    500_000,
    1_000_000,
    2_000_000,
    5_000_000,
    10_000_000,
    20_000_000,
    50_000_000,
    100_000_000,
    200_000_000,
    500_000_000,
    1_000_000_000,
    2_000_000_000,
    5_000_000_000,
    10_000_000_000,
    20_000_000_000,
    50_000_000_000,
    100_000_000_000,
    200_000_000_000,
    500_000_000_000,
    1_000_000_000_000,
    2_000_000_000_000,
    5_000_000_000_000,
    10_000_000_000_000,
    20_000_000_000_000,
    50_000_000_000_000,
    100_000_000_000_000,
    200_000_000_000_000,
    500_000_000_000_000,
    1_000_000_000_000_000,
    2_000_000_000_000_000,
    5_000_000_000_000_000,
    10_000_000_000_000_000,
    20_000_000_000_000_000,
    50_000_000_000_000_000,
    100_000_000_000_000_000,
    200_000_000_000_000_000,
    500_000_000_000_000_000,
    1_000_000_000_000_000_000,
    2_000_000_000_000_000_000,
    5_000_000_000_000_000_000,
    10_000_000_000_000_000_000,
];

/// How long the axis of time is, in tenths of a unit: no axis is longer.
pub const WIDTH: u128 = 10240;

/// How high the axis of minislots is, in tenths of a unit.
pub const HEIGHT: u128 = 3200;

/// The place of an amount on an axis that is so many units long and has the other amount at its end, rounded down.
pub fn place(long: u128, amount: u128, full: u128) -> u128
    requires short { long ≤ WIDTH }
    requires small { amount < 2 ^ 112 }
    ensures value { result ≡ place long amount full }
{
    long * amount / full.max(1)
}

// How far one tick is from the next, where the axis has this amount at its end.
#[tactic(auto, unfolding(crate::specs::Axis::round_step, crate::specs::Axis::first_enough))]
pub(crate) fn round_step(full: u128) -> u128
    requires { full < 2 ^ 100 }
    ensures value { result ≡ round_step full }
    ensures small { result < 2 ^ 100 }
{
    for i in 0..ROUND.len() {
        let step = u128::from(ROUND[i]);
        if full <= 10 * step {
            return step;
        }
    }
    full
}

// So many minislots of so many ticks of 6.25 microseconds, in microseconds, rounded to the nearest.
pub(crate) fn microseconds(ticks: u32, slots: u128) -> u128
    requires { slots < 2 ^ 80 }
    ensures { result ≡ microseconds ticks slots }
{
    (slots * u128::from(ticks) * 25 + 2) / 4
}
