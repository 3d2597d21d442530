//! The fields of a configuration by their names.

ghost use Rattle.std.specs.Prelude.{◌≡◌};
ghost use Rattle.live_command.specs.Field.{field_words, usage_words, member_words};

use std::fmt;
use std::fmt::{Display, Formatter};

/// A profile of the bursts of a configuration.
#[derive(Clone, Copy, Debug, PartialEq, Eq)]
pub enum Usage {
    Short,
    Long,
    Unsolicited,
}

impl Usage {
    /// Its name.
    pub fn words(self) -> &'static str
        ensures { result.now ≡ usage_words self }
    {
        match self {
            Usage::Short => "short",
            Usage::Long => "long",
            Usage::Unsolicited => "unsolicited",
        }
    }
}

/// A number of a profile.
#[derive(Clone, Copy, Debug, PartialEq, Eq)]
pub enum Member {
    Preamble,
    Guard,
    Bits,
    Parity,
    Information,
    Shortened,
}

impl Member {
    /// Its name.
    pub fn words(self) -> &'static str
        ensures { result.now ≡ member_words self }
    {
        match self {
            Member::Preamble => "preamble",
            Member::Guard => "guard",
            Member::Bits => "bits",
            Member::Parity => "parity",
            Member::Information => "information",
            Member::Shortened => "shortened",
        }
    }
}

/// A field of a configuration, or a number in its bursts.
#[derive(Clone, Copy, Debug, PartialEq, Eq)]
pub enum Field {
    Ticks,
    BytesPerSlot,
    Overhead,
    Frame,
    Cycle,
    ReqSlots,
    PollSlots,
    Lead,
    ShortMax,
    Quantum,
    GrantCap,
    Receivers,
    Calls,
    Start,
    RangingStart,
    RangingEnd,
    DataStart,
    DataEnd,
    Channel,
    UcdCount,
    Phy,
    /// Whether there are bursts.
    Bursts,
    /// The symbols of a minislot, in the bursts.
    Symbols,
    /// A number of a profile, in the bursts.
    Profile(Usage, Member),
    Flows,
    Pending,
    Periodic,
    OpenIdle,
    Settle,
}

impl Field {
    /// Its name; of a number of a profile, that of the bursts.
    pub fn words(self) -> &'static str
        ensures { result.now ≡ field_words self }
    {
        match self {
            Field::Ticks => "ticks",
            Field::BytesPerSlot => "bytes_per_slot",
            Field::Overhead => "overhead",
            Field::Frame => "frame",
            Field::Cycle => "cycle",
            Field::ReqSlots => "req_slots",
            Field::PollSlots => "poll_slots",
            Field::Lead => "lead",
            Field::ShortMax => "short_max",
            Field::Quantum => "quantum",
            Field::GrantCap => "grant_cap",
            Field::Receivers => "receivers",
            Field::Calls => "calls",
            Field::Start => "start",
            Field::RangingStart => "ranging_start",
            Field::RangingEnd => "ranging_end",
            Field::DataStart => "data_start",
            Field::DataEnd => "data_end",
            Field::Channel => "channel",
            Field::UcdCount => "ucd_count",
            Field::Phy => "phy",
            Field::Symbols => "bursts.symbols",
            Field::Bursts | Field::Profile(_, _) => "bursts",
            Field::Flows => "flows",
            Field::Pending => "pending",
            Field::Periodic => "periodic",
            Field::OpenIdle => "open_idle",
            Field::Settle => "settle",
        }
    }
}

impl Display for Field {
    fn fmt<W: fmt::Write>(&self, f: &mut Formatter<W>) -> fmt::Result {
        f.write_str(self.words())?;
        if let Field::Profile(usage, member) = self {
            write!(f, ".{}.{}", usage.words(), member.words())?;
        }
        Ok(())
    }
}
