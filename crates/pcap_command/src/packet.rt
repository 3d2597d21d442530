//! The heads of a capture and of its packets: the classic form of pcap with nanoseconds, little endian.

ghost use Rattle.std.specs.Prelude.{◌≡◌, ◌≤◌, ◌<◌, ◌^◌};
ghost use Rattle.pcap_command.specs.Capture.{seconds_of, nanoseconds_of, capture_head, packet_head};

use minislots::Checked;

/// Ticks of 6.25 microseconds in a second.
const TICKS: u64 = 160_000;

/// The head of a capture.
#[tactic(auto, unfolding(crate::specs::Capture::capture_head))]
pub(crate) fn capture_head() -> [u8; 24]
    ensures { result ≡ capture_head }
{
    [
        0x4D, 0x3C, 0xB2, 0xA1, 2, 0, 4, 0, 0, 0, 0, 0, 0, 0, 0, 0, 0, 0, 4, 0, 143, 0, 0, 0,
    ]
}

// The whole seconds from minislot 0 to the start of another, modulo 2^32, and the nanoseconds behind these.
fn time_of(config: &Checked, slot: u64) -> (u32, u32)
    ensures seconds { result.0 ≡ seconds_of config.now slot }
    ensures nanoseconds { result.1 ≡ nanoseconds_of config.now slot }
{
    let ticks = u64::from(config.config().ticks);
    let rest = slot % TICKS * ticks;
    let seconds = slot / TICKS * ticks + rest / TICKS;
    let nanoseconds = rest % TICKS * 6_250;
    ((seconds % (1 << 32)) as u32, nanoseconds as u32)
}

/// The head of a packet of so many bytes at the start of a minislot.
#[tactic(auto, unfolding(crate::specs::Capture::packet_head))]
pub(crate) fn packet_head(config: &Checked, slot: u64, len: u32) -> [u8; 16]
    ensures { result ≡ packet_head config.now slot len }
{
    let (seconds, nanoseconds) = time_of(config, slot);
    let [a, b, c, d] = seconds.to_le_bytes();
    let [e, f, g, h] = nanoseconds.to_le_bytes();
    let [i, j, k, l] = len.to_le_bytes();
    [a, b, c, d, e, f, g, h, i, j, k, l, i, j, k, l]
}
