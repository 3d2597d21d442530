//! What bursts of so many bytes take.

ghost use Rattle.std.specs.Prelude.{◌≡◌, ◌≤◌, ◌^◌};
ghost use Rattle.bursts_command.specs.Numbers.{slots_of, request_slots, by_profile, raw_bits, burst_of};

use crate::channel::Channel;
use minislots::{Bursts, Checked, Config, Descriptors, GrantSize, Profile};

/// The minislots of a burst of so many bytes by each profile of a channel.
#[derive(Clone, Copy)]
pub(crate) struct ByProfile {
    pub(crate) short: u64,
    pub(crate) long: u64,
    pub(crate) unsolicited: u64,
}

/// What bursts of so many bytes take: by each profile, where the channel has burst descriptors, and as a data grant.
#[derive(Clone, Copy)]
pub(crate) struct Burst {
    pub(crate) bytes: u32,
    pub(crate) by_profile: Option<ByProfile>,
    pub(crate) is_short: bool,
    pub(crate) slots: u64,
    // In hundredths of a percent.
    pub(crate) efficiency: u64,
}

/// The minislots of a burst of so many bytes by a profile, with the symbols of a channel's minislots: none where the
/// profile is not lawful, or the channel has no burst descriptors.
pub fn slots_by(config: &Checked, profile: Profile, bytes: u32) -> Option<u64>
    ensures { result ≡ slots_of config.now.bursts profile bytes }
{
    let Bursts::Described(these) = config.bursts() else {
        return None;
    };
    // On the channel whose unsolicited grants have that profile they take as many.
    let bursts = Bursts::Described(Descriptors {
        unsolicited: profile,
        ..these
    });
    let channel = Config {
        bursts,
        phy: 1,
        ..config.config()
    };
    Some(channel.check().ok()?.slots_for_unsolicited(bytes))
}

/// The minislots of a request of so many bytes, where a lawful profile of requests is known.
pub(crate) fn request_slots(channel: &Channel, bytes: u32) -> Option<u64>
    ensures { result ≡ request_slots channel.now bytes }
{
    slots_by(&channel.config, channel.request?, bytes)
}

// The minislots of a burst of so many bytes by each profile.
fn by_profile(config: &Checked, bytes: u32) -> Option<ByProfile>
    ensures { result ≡ by_profile config.now.bursts bytes }
{
    let Bursts::Described(these) = config.bursts() else {
        return None;
    };
    Some(ByProfile {
        short: slots_by(config, these.short, bytes)?,
        long: slots_by(config, these.long, bytes)?,
        unsolicited: slots_by(config, these.unsolicited, bytes)?,
    })
}

// The bits that a minislot of a data grant has where nothing but symbols of data stands in it.
fn raw_bits(config: &Checked, is_short: bool) -> u64
    ensures value { result ≡ raw_bits config.now.bursts is_short }
    ensures small { result ≤ 2 ^ 15 }
{
    match config.bursts() {
        Bursts::Uniform { bytes_per_slot, .. } => 8 * u64::from(bytes_per_slot),
        Bursts::Described(these) => {
            let profile = if is_short { these.short } else { these.long };
            u64::from(these.symbols) * u64::from(profile.bits)
        }
    }
}

/// What bursts of so many bytes take.
#[tactic(auto, unfolding(crate::specs::Numbers::burst_of))]
pub(crate) fn burst_of(config: &Checked, bytes: u32) -> Burst
    ensures { result ≡ burst_of config.now bytes }
{
    let GrantSize { slots, is_short } = config.grant_size(bytes);
    let raw = slots * raw_bits(config, is_short);
    let efficiency = (80_000 * u64::from(bytes)).checked_div(raw).unwrap_or(0);
    Burst {
        bytes,
        by_profile: by_profile(config, bytes),
        is_short,
        slots,
        efficiency,
    }
}
