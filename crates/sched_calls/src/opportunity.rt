//! Opportunities: minislots that are asked for by name, in which modems range, request or send without a flow, or in
//! which nobody sends.

ghost use Rattle.std.specs.Prelude.{◌≡◌};
ghost use Rattle.sched_calls.specs.Header.{header_of};

use minislots::Checked;

/// What an opportunity is used for, and by whom.
#[derive(Clone, Copy, Debug, PartialEq, Eq)]
pub enum Usage {
    /// Initial Maintenance: any modem that joins the channel may send there, so it goes to the SID of all modems.
    Initial,
    /// Initial Maintenance of the modem with this SID, from 1 to 8191.
    InitialTo(u16),
    /// Station Maintenance of the modem with this SID, from 1 to 8191.
    Station(u16),
    /// Requests of the modem with this SID, from 1 to 8191; of those with traffic of some priorities, whose SIDs are
    /// 15873 to 16127; or of all modems, whose SID is 16383.
    Request(u16),
    /// Nobody sends: in such a window a receiver measures noise.
    Quiet,
    /// A data grant to this SID, from 1 to 8191, which needs no flow: a modem that registers has a temporary one.
    DataTo(u16),
}

/// Minislots that are asked for by name.
#[derive(Clone, Copy, Debug, PartialEq, Eq)]
pub struct Opportunity {
    /// What it is used for, and by whom.
    pub usage: Usage,
    /// How many minislots it has.
    pub slots: u16,
}

/// What a MAP's header says of the channel's description and of contention: the UCD count, and the exponents of the
/// windows in which modems back off.
#[derive(Clone, Copy, Debug, PartialEq, Eq)]
pub struct Header {
    /// The count of the channel descriptor that the MAP goes by.
    pub ucd_count: u8,
    /// The exponent of the first window of ranging.
    pub ranging_start: u8,
    /// The exponent of the last window of ranging.
    pub ranging_end: u8,
    /// The exponent of the first window of requests.
    pub data_start: u8,
    /// The exponent of the last window of requests.
    pub data_end: u8,
}

impl Header {
    /// The header of a configuration.
    pub fn of(config: &Checked) -> Header
        ensures { result ≡ header_of config.now }
    {
        Header {
            ucd_count: config.ucd_count(),
            ranging_start: config.ranging_start(),
            ranging_end: config.ranging_end(),
            data_start: config.data_start(),
            data_end: config.data_end(),
        }
    }
}
