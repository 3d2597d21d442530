//! The usage codes of grants, by the channel's physical layer.

ghost use Rattle.std.specs.Prelude.{◌≡◌, ◌==◌, if◌then◌else◌};
ghost use Rattle.map_build.specs.UsageCodes.{short_iuc, long_iuc, full_iuc, unsolicited_iuc};

use map_codec::iuc;
use minislots::Checked;

// Whether the channel's bursts are those of an Advanced PHY.
fn is_advanced(config: &Checked) -> bool
    ensures { result ≡ (config.now.phy == 1) }
{
    config.phy() == 1
}

// The usage code of a short data grant.
fn short_iuc(config: &Checked) -> u8
    ensures { result ≡ short_iuc config.now }
{
    if is_advanced(config) {
        iuc::ADVANCED_SHORT_DATA_GRANT
    } else {
        iuc::SHORT_DATA_GRANT
    }
}

/// The usage code of a long data grant, of a pending grant and of an idle.
pub(crate) fn long_iuc(config: &Checked) -> u8
    ensures { result ≡ long_iuc config.now }
{
    if is_advanced(config) {
        iuc::ADVANCED_LONG_DATA_GRANT
    } else {
        iuc::LONG_DATA_GRANT
    }
}

/// The usage code of a data grant, short or long.
pub(crate) fn data_iuc(config: &Checked, is_short: bool) -> u8
    ensures { result ≡ (if is_short then short_iuc config.now else long_iuc config.now) }
{
    if is_short {
        short_iuc(config)
    } else {
        long_iuc(config)
    }
}

/// The usage code of a data grant of as many bytes as so many minislots carry: long where they carry none.
pub(crate) fn full_iuc(config: &Checked, slots: u16) -> u8
    ensures { result ≡ full_iuc config.now slots }
{
    // So few minislots of a lawful configuration carry fewer bytes than 2^32.
    let _lawful = config.frame();
    match config.bytes_in(u32::from(slots)) {
        0 => long_iuc(config),
        bytes => data_iuc(config, config.grant_size(bytes as u32).is_short),
    }
}

/// The usage code of an unsolicited grant of so many bytes.
pub(crate) fn unsolicited_iuc(config: &Checked, bytes: u32) -> u8
    ensures { result ≡ unsolicited_iuc config.now bytes }
{
    if is_advanced(config) {
        iuc::ADVANCED_UNSOLICITED_GRANT
    } else {
        data_iuc(config, config.grant_size(bytes).is_short)
    }
}
