//! The part of a history that a report tells of.

ghost use Rattle.std.specs.Prelude.{◌≡◌, ◌*◌, ◌-◌, ◌^◌, ◌<◌, nat_le};
ghost use Rattle.report_command.specs.Range.{ticks_until, is_over};

use minislots::Checked;

// How many ticks of 6.25 microseconds a millisecond has.
pub(crate) const TICKS: u128 = 160;

/// The part of a history that a report tells of: the entries at whose time the next frame starts so many milliseconds
/// after the configuration's start, or later, and where an end is given, earlier than that.
#[derive(Clone, Copy, Debug, PartialEq, Eq)]
pub struct Range {
    /// Where it begins.
    pub from: u64,
    /// Where it ends, if before the history does.
    pub to: Option<u64>,
}

impl Range {
    /// All of a history.
    pub const fn whole() -> Range
        ensures { result ≡ record { from = 0; to = None } }
    {
        Range { from: 0, to: None }
    }

    // Whether it has begun where the next frame starts so many ticks after the start.
    pub(crate) fn has_begun(self, ticks: u128) -> bool
        ensures { result ≡ nat_le (160 * self.from) ticks }
    {
        TICKS * u128::from(self.from) <= ticks
    }

    // Whether it is over there.
    pub(crate) fn is_over(self, ticks: u128) -> bool
        ensures { result ≡ is_over self.to ticks }
    {
        match self.to {
            Some(to) => TICKS * u128::from(to) <= ticks,
            None => false,
        }
    }
}

// How many ticks after the configuration's start a frame starts.
pub(crate) fn ticks_until(config: &Checked, start: u64) -> u128
    ensures is { result ≡ ticks_until config.now start }
    ensures few { result < 2 ^ 100 }
{
    u128::from(start.saturating_sub(config.start())) * u128::from(config.ticks())
}
