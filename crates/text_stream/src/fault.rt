//! Why a text is not read or not written.

ghost use Rattle.std.specs.Prelude.{◌≡◌};
ghost use Rattle.text_stream.specs.declared.fault.TextFault.TheVariants.{Memory, Config};
ghost use Rattle.text_stream.specs.Fault.{field_number};

use minislots::ConfigFault;
use std::alloc::AllocError;
use thiserror::Error;

/// Why a text is not read or not written. An input is tested in this order, up to its configuration;
/// lack of memory can take the place of each of these tests.
#[derive(Clone, Copy, Debug, PartialEq, Eq, Error)]
pub enum TextFault {
    /// A read failed.
    #[error("input failed")]
    Input,
    /// The input has more than 16777216 bytes.
    #[error("input too long")]
    TooLong,
    /// The input is not JSON text in UTF-8.
    #[error("not json")]
    NotJson,
    /// The script or the history is broken: 0 in the document or its configuration, else at this call, counted
    /// from 1 through all scripts, or at this entry, counted from 1.
    #[error("bad script at {0}")]
    Shape(u64),
    /// This field of the configuration has no lawful value.
    #[error("bad config {}", field_number(*.0))]
    Config(ConfigFault),
    /// Memory ran out.
    #[error("out of memory")]
    Memory,
    /// A write failed.
    #[error("output failed")]
    Output,
}

impl From<AllocError> for TextFault {
    ghost from_gives = { λ _ fault. fault ≡ Memory };

    fn from(_e: AllocError) -> TextFault {
        TextFault::Memory
    }
}

impl From<ConfigFault> for TextFault {
    ghost from_gives = { λ field fault. fault ≡ Config field };

    fn from(field: ConfigFault) -> TextFault {
        TextFault::Config(field)
    }
}

/// The number of a field by which its fault is told. Burst descriptors come behind the physical layer, whatever their
/// place is in the order of the tests.
pub fn field_number(fault: ConfigFault) -> u8
    ensures { result ≡ field_number fault }
{
    match fault {
        ConfigFault::Ticks => 1,
        ConfigFault::BytesPerSlot => 2,
        ConfigFault::Overhead => 3,
        ConfigFault::Frame => 4,
        ConfigFault::Cycle => 5,
        ConfigFault::ReqSlots => 6,
        ConfigFault::PollSlots => 7,
        ConfigFault::Lead => 8,
        ConfigFault::ShortMax => 9,
        ConfigFault::Quantum => 10,
        ConfigFault::GrantCap => 11,
        ConfigFault::Receivers => 12,
        ConfigFault::Calls => 13,
        ConfigFault::Start => 14,
        ConfigFault::RangingStart => 15,
        ConfigFault::RangingEnd => 16,
        ConfigFault::DataStart => 17,
        ConfigFault::DataEnd => 18,
        ConfigFault::Phy => 19,
        ConfigFault::Bursts => 20,
        ConfigFault::Flows => 21,
        ConfigFault::Pending => 22,
        ConfigFault::Periodic => 23,
        ConfigFault::OpenIdle => 24,
        ConfigFault::Settle => 25,
    }
}
