//! What the parameters of a flow say of its place, in minislots.

ghost use Rattle.std.specs.Prelude.{◌≡◌, ◌/◌};
ghost use Rattle.minislots.specs.Config.{IsLawful};
ghost use Rattle.minislots.specs.Units.{slots_floor};
ghost use Rattle.channel_states.specs.Nominal.{IsNominalOf};

use minislots::Checked;
use sched_calls::FlowSpec;

// The frames of a flow's interval, the minislots of its jitter and of one grant or poll, and how many of these each
// nominal frame has. All are 0 where it is not periodic.
#[derive(Clone, Copy)]
pub(crate) struct Nominal {
    pub(crate) interval: u64,
    pub(crate) jitter: u64,
    pub(crate) slots: u64,
    pub(crate) grants: usize,
}

// What these parameters say.
pub(crate) fn nominal_of(config: &Checked, spec: &FlowSpec) -> Nominal
    ensures value { IsNominalOf config.now spec.now result }
    ensures lawful { IsLawful config.now }
{
    let grants = usize::from(spec.grants());
    match *spec {
        FlowSpec::Unsolicited {
            size,
            interval_us,
            jitter_us,
            ..
        } => Nominal {
            interval: frames_of(config, interval_us),
            jitter: config.slots_floor(jitter_us),
            slots: config.slots_for_unsolicited(size),
            grants,
        },
        FlowSpec::Polled {
            interval_us,
            jitter_us,
            ..
        } => Nominal {
            interval: frames_of(config, interval_us),
            jitter: config.slots_floor(jitter_us),
            slots: u64::from(config.poll_slots()),
            grants,
        },
        FlowSpec::BestEffort { .. } => Nominal {
            interval: frames_of(config, 0),
            jitter: 0,
            slots: 0,
            grants,
        },
    }
}

// The whole frames in so many microseconds.
fn frames_of(config: &Checked, micros: u32) -> u64
    ensures value { result ≡ slots_floor config.now micros / config.now.frame }
    ensures lawful { IsLawful config.now }
{
    config.slots_floor(micros) / u64::from(config.frame())
}
