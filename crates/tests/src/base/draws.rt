//! Numbers that are drawn by a fixed rule, so that each run has the same.

ghost use Rattle.std.specs.Prelude.{◌<◌, ◌≤◌};

use flow_book::FlowSpec;

/// A fixed sequence of numbers.
#[derive(Drop)]
pub struct Draws {
    state: u64,
}

impl Draws {
    /// The sequence that starts at this number.
    pub fn from_seed(seed: u64) -> Draws {
        Draws { state: seed }
    }

    /// The next number, below the bound.
    pub fn below(&mut self, bound: u32) -> u32
        requires { 0 < bound }
        ensures { result < bound }
    {
        self.state = self
            .state
            .wrapping_mul(6_364_136_223_846_793_005)
            .wrapping_add(1_442_695_040_888_963_407);
        ((self.state >> 33) % u64::from(bound)) as u32
    }

    /// A minislot at or after this one.
    pub fn later(&mut self, now: u64) -> u64
        ensures { now ≤ result }
    {
        now.saturating_add(u64::from(self.below(30)))
    }

    /// Parameters of some flow: one in eight has one or two unsolicited grants in an interval, some have no ceiling,
    /// and half of them have a peak, below the rate or above it.
    pub fn spec(&mut self) -> FlowSpec {
        let draw = self.below(4) as usize;
        let rate = [0, 64_000, 300_000, 2_000_000][draw];
        let burst = [600, 1_600, 9_000][self.below(3) as usize];
        let peak = [0, 0, 0, 1, 100_000, 4_000_000][self.below(6) as usize];
        match self.below(8) {
            0 => FlowSpec::Unsolicited {
                size: 100,
                interval_us: 10_000,
                jitter_us: 225,
                grants: [1, 2, 1, 2][draw],
            },
            1 | 2 => FlowSpec::Polled {
                interval_us: 5_000,
                jitter_us: 0,
                rate,
                burst,
                peak,
            },
            priority => FlowSpec::BestEffort {
                priority: priority as u8,
                rate,
                burst,
                peak,
                reserved: 0,
                reserved_burst: 0,
            },
        }
    }
}
