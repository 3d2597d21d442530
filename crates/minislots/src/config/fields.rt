//! The tests of a configuration's fields, in groups that follow one another.

ghost use Rattle.std.specs.Prelude.{◌≡◌, ◌<◌, IsTrue, MatchResult, Some, false};
ghost use Rattle.minislots.specs.Bursts.{HasBursts};
ghost use Rattle.minislots.specs.Config.{is_ticks, is_lawful_field, first_wrong, IsLawful};
ghost use Rattle.minislots.specs.Config.{burst_fields, frame_fields, grant_fields, history_fields};
ghost use Rattle.minislots.specs.Config.{backoff_fields, channel_fields, flow_fields, idle_fields};
ghost use Rattle.minislots.specs.Config.{NamesFirstWrong};

use super::{Config, ConfigFault};
use crate::MAX_ASK;
use crate::bursts::{Bursts, is_within};

// The fault where its field isn't lawful.
fn require(is_lawful: bool, fault: ConfigFault) -> Result<(), ConfigFault>
    ensures { MatchResult result (λ _. IsTrue is_lawful) (λ e. (is_lawful ≡ false) × (e ≡ fault)) }
{
    if is_lawful { Ok(()) } else { Err(fault) }
}

fn is_ticks(n: u32) -> bool
    ensures { result ≡ is_ticks n }
{
    matches!(n, 1 | 2 | 4 | 8 | 16 | 32 | 64 | 128)
}

impl Config {
    // All fields, group by group.
    pub(super) fn check_fields(&self) -> Result<(), ConfigFault>
        ensures { MatchResult result (λ _. IsLawful self.now) (λ e. first_wrong self.now ≡ Some e) }
    {
        self.check_burst()?;
        self.check_frame()?;
        self.check_grants()?;
        self.check_history()?;
        self.check_backoffs()?;
        self.check_channel()?;
        self.check_flows()?;
        self.check_idles()
    }

    // The fields of a burst.
    fn check_burst(&self) -> Result<(), ConfigFault>
        ensures { NamesFirstWrong self.now burst_fields result }
    {
        require(is_ticks(self.ticks), ConfigFault::Ticks)?;
        match &self.bursts {
            Bursts::Uniform {
                bytes_per_slot,
                overhead,
            } => {
                require(
                    is_within(1, 1024, *bytes_per_slot),
                    ConfigFault::BytesPerSlot,
                )?;
                require(is_within(1, 64, *overhead), ConfigFault::Overhead)
            }
            Bursts::Described(these) => require(these.are_lawful(), ConfigFault::Bursts),
        }
    }

    // The fields that lay out a frame.
    fn check_frame(&self) -> Result<(), ConfigFault>
        requires { HasBursts self.now.bursts }
        ensures { NamesFirstWrong self.now frame_fields result }
    {
        require(is_within(16, 1024, self.frame), ConfigFault::Frame)?;
        require(is_within(1, 64, self.cycle), ConfigFault::Cycle)?;
        require(self.has_room_for_requests(), ConfigFault::ReqSlots)?;
        require(self.has_room_for_polls(), ConfigFault::PollSlots)?;
        require(self.has_lawful_lead(), ConfigFault::Lead)?;
        require(self.short_max <= self.frame, ConfigFault::ShortMax)
    }

    // The fields of a data grant.
    fn check_grants(&self) -> Result<(), ConfigFault>
        requires { HasBursts self.now.bursts }
        ensures { NamesFirstWrong self.now grant_fields result }
    {
        require(self.has_room_for_quantum(), ConfigFault::Quantum)?;
        require(
            is_within(self.quantum, MAX_ASK, self.grant_cap),
            ConfigFault::GrantCap,
        )
    }

    // The fields of what is heard and kept, and of where the first MAP starts.
    fn check_history(&self) -> Result<(), ConfigFault>
        requires { 0 < self.now.frame }
        ensures { NamesFirstWrong self.now history_fields result }
    {
        require(
            is_within(1, 16, self.receivers.into()),
            ConfigFault::Receivers,
        )?;
        require(is_within(1, 1 << 24, self.calls), ConfigFault::Calls)?;
        require(self.has_lawful_start(), ConfigFault::Start)
    }

    // The fields of the backoff windows.
    fn check_backoffs(&self) -> Result<(), ConfigFault>
        ensures { NamesFirstWrong self.now backoff_fields result }
    {
        require(self.ranging_start <= 15, ConfigFault::RangingStart)?;
        require(self.ranging_end <= 15, ConfigFault::RangingEnd)?;
        require(self.data_start <= 15, ConfigFault::DataStart)?;
        require(self.data_end <= 15, ConfigFault::DataEnd)
    }

    // The field of the channel's physical layer.
    fn check_channel(&self) -> Result<(), ConfigFault>
        ensures { NamesFirstWrong self.now channel_fields result }
    {
        require(self.phy <= 1, ConfigFault::Phy)
    }

    // The fields of how many flows there may be, and how much of them a MAP and an interval have.
    fn check_flows(&self) -> Result<(), ConfigFault>
        ensures { NamesFirstWrong self.now flow_fields result }
    {
        require(is_within(1, 8191, self.flows), ConfigFault::Flows)?;
        require(is_within(1, 125, self.pending), ConfigFault::Pending)?;
        require(self.periodic <= 2560, ConfigFault::Periodic)
    }

    // The fields of idles that are open to requests, and of MAPs in which nobody sends.
    fn check_idles(&self) -> Result<(), ConfigFault>
        ensures { NamesFirstWrong self.now idle_fields result }
    {
        require(self.open_idle <= 1, ConfigFault::OpenIdle)?;
        require(self.settle <= 4096, ConfigFault::Settle)
    }

    fn has_room_for_requests(&self) -> bool
        requires { HasBursts self.now.bursts }
        ensures { result ≡ is_lawful_field self.now ConfigFault.ReqSlots }
    {
        let used = u64::from(self.req_slots) + self.bursts.long_slots(1);
        1 <= self.req_slots && used <= u64::from(self.frame)
    }

    fn has_room_for_polls(&self) -> bool
        ensures { result ≡ is_lawful_field self.now ConfigFault.PollSlots }
    {
        let used = u64::from(self.poll_slots) + u64::from(self.req_slots);
        1 <= self.poll_slots && used <= u64::from(self.frame)
    }

    fn has_lawful_lead(&self) -> bool
        ensures { result ≡ is_lawful_field self.now ConfigFault.Lead }
    {
        u64::from(self.lead) + 2 * u64::from(self.frame) <= 4096
    }

    fn has_room_for_quantum(&self) -> bool
        requires { HasBursts self.now.bursts }
        ensures { result ≡ is_lawful_field self.now ConfigFault.Quantum }
    {
        let sizes = self.bursts.short_sizes(self.short_max);
        let burst = self.bursts.grant_size(sizes, self.quantum).slots;
        is_within(64, 1522, self.quantum)
            && burst + u64::from(self.req_slots) <= u64::from(self.frame)
    }

    fn has_lawful_start(&self) -> bool
        requires { 0 < self.now.frame }
        ensures { result ≡ is_lawful_field self.now ConfigFault.Start }
    {
        self.start % u64::from(self.frame) == 0 && self.start <= 1 << 60
    }
}
