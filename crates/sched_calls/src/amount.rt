//! How much a request asks for.

ghost use Rattle.std.specs.Prelude.{◌≡◌};
ghost use Rattle.sched_calls.specs.Amount.{requested};

use minislots::Checked;

/// How much a request asks for.
#[derive(Clone, Copy, Debug, PartialEq, Eq)]
pub enum Amount {
    /// So many bytes, as a queue-depth based request of a DOCSIS 3.0 modem tells them.
    Bytes(u32),
    /// The most bytes of a data grant of so many minislots, as a request frame tells them that asks for the minislots
    /// of the burst that the modem would send.
    Slots(u32),
}

impl Amount {
    /// The bytes that the request asks for on this channel.
    pub fn bytes(&self, config: &Checked) -> u64
        ensures { result ≡ requested config.now self.now }
    {
        match self {
            Amount::Bytes(bytes) => u64::from(*bytes),
            Amount::Slots(slots) => config.bytes_in(*slots),
        }
    }
}
