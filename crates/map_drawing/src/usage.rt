//! What an allocation is for, in words.

ghost use Rattle.std.specs.Prelude.{◌≡◌};
ghost use Rattle.map_drawing.specs.Usage.{element_usage, words_of};

use map_codec::iuc;

/// The service identifier of all modems.
pub const ALL_MODEMS: u16 = 0x3FFF;

/// What an allocation is for: its interval usage code, where a request region of one modem is a poll, and a grant to
/// no modem is idle.
#[derive(Clone, Copy, Debug, PartialEq, Eq)]
pub enum ElementUsage {
    /// All modems may ask.
    RequestRegion,
    /// One modem, or a group, may ask.
    Poll,
    /// Request/Data.
    RequestData,
    /// Initial Maintenance.
    InitialMaintenance,
    /// Station Maintenance.
    StationMaintenance,
    /// Short Data Grant.
    ShortGrant,
    /// Long Data Grant.
    LongGrant,
    /// A grant to no modem.
    Idle,
    /// The end of the allocations.
    Null,
    /// Data Acknowledge.
    DataAcknowledge,
    /// Advanced PHY Short Data Grant.
    AdvancedShortGrant,
    /// Advanced PHY Long Data Grant.
    AdvancedLongGrant,
    /// Advanced PHY Unsolicited Grant.
    AdvancedUnsolicitedGrant,
    /// A code without a meaning.
    Reserved,
}

impl ElementUsage {
    /// What an element with this service identifier and interval usage code allocates.
    #[tactic(auto, unfolding(crate::specs::Usage::element_usage))]
    pub fn of(sid: u16, code: u8) -> ElementUsage
        ensures { result ≡ element_usage sid code }
    {
        match code {
            iuc::REQUEST if sid == ALL_MODEMS => ElementUsage::RequestRegion,
            iuc::REQUEST => ElementUsage::Poll,
            iuc::REQUEST_DATA => ElementUsage::RequestData,
            iuc::INITIAL_MAINTENANCE => ElementUsage::InitialMaintenance,
            iuc::STATION_MAINTENANCE => ElementUsage::StationMaintenance,
            iuc::SHORT_DATA_GRANT | iuc::LONG_DATA_GRANT if sid == 0 => ElementUsage::Idle,
            iuc::SHORT_DATA_GRANT => ElementUsage::ShortGrant,
            iuc::LONG_DATA_GRANT => ElementUsage::LongGrant,
            iuc::NULL => ElementUsage::Null,
            iuc::DATA_ACKNOWLEDGE => ElementUsage::DataAcknowledge,
            iuc::ADVANCED_SHORT_DATA_GRANT | iuc::ADVANCED_LONG_DATA_GRANT if sid == 0 =>
                ElementUsage::Idle,
            iuc::ADVANCED_SHORT_DATA_GRANT => ElementUsage::AdvancedShortGrant,
            iuc::ADVANCED_LONG_DATA_GRANT => ElementUsage::AdvancedLongGrant,
            iuc::ADVANCED_UNSOLICITED_GRANT => ElementUsage::AdvancedUnsolicitedGrant,
            _ => ElementUsage::Reserved,
        }
    }

    /// The usage in words.
    #[tactic(auto, unfolding(crate::specs::Usage::words_of))]
    pub fn words(self) -> &'static [u8]
        ensures { result.now ≡ words_of self }
    {
        match self {
            ElementUsage::RequestRegion => b"request region",
            ElementUsage::Poll => b"poll",
            ElementUsage::RequestData => b"request/data",
            ElementUsage::InitialMaintenance => b"initial maintenance",
            ElementUsage::StationMaintenance => b"station maintenance",
            ElementUsage::ShortGrant => b"short data grant",
            ElementUsage::LongGrant => b"long data grant",
            ElementUsage::Idle => b"idle",
            ElementUsage::Null => b"null",
            ElementUsage::DataAcknowledge => b"data acknowledge",
            ElementUsage::AdvancedShortGrant => b"advanced short data grant",
            ElementUsage::AdvancedLongGrant => b"advanced long data grant",
            ElementUsage::AdvancedUnsolicitedGrant => b"advanced unsolicited grant",
            ElementUsage::Reserved => b"reserved",
        }
    }
}
