//! How a bar looks.

ghost use Rattle.std.specs.Prelude.{◌≡◌};
ghost use Rattle.frame_picture.specs.Bars.{usage_look, met_look, met_words, look_of, words_in, origin_of};
ghost use Rattle.frame_picture.specs.Bars.{is_named, name_width};

use crate::bar::Bar;
use crate::open_idle::is_open_idle;
use map_drawing::ElementUsage;

// The name of the colour and the pattern of a usage.
#[tactic(auto, unfolding(crate::specs::Bars::usage_look))]
fn usage_look(usage: ElementUsage) -> &'static [u8]
    ensures { result.now ≡ usage_look usage }
{
    match usage {
        ElementUsage::RequestRegion => b"region",
        ElementUsage::Poll => b"poll",
        ElementUsage::ShortGrant | ElementUsage::AdvancedShortGrant => b"short",
        ElementUsage::LongGrant | ElementUsage::AdvancedLongGrant => b"long",
        ElementUsage::AdvancedUnsolicitedGrant => b"unsolicited",
        ElementUsage::InitialMaintenance | ElementUsage::StationMaintenance => b"ranging",
        ElementUsage::Idle => b"idle",
        ElementUsage::RequestData
        | ElementUsage::Null
        | ElementUsage::DataAcknowledge
        | ElementUsage::Reserved => b"other",
    }
}

// The name of the colour and the pattern of an opportunity that was reserved, by the usage that its element reads like.
#[tactic(auto, unfolding(crate::specs::Bars::met_look))]
fn met_look(usage: ElementUsage) -> &'static [u8]
    ensures { result.now ≡ met_look usage }
{
    match usage {
        ElementUsage::RequestRegion | ElementUsage::Poll => b"request",
        ElementUsage::StationMaintenance | ElementUsage::InitialMaintenance => b"ranging",
        ElementUsage::Idle => b"quiet",
        _ => b"data",
    }
}

// The words of an opportunity that was reserved.
#[tactic(auto, unfolding(crate::specs::Bars::met_words))]
fn met_words(usage: ElementUsage) -> &'static [u8]
    ensures { result.now ≡ met_words usage }
{
    match usage {
        ElementUsage::RequestRegion | ElementUsage::Poll => b"request opportunity",
        ElementUsage::InitialMaintenance => b"initial maintenance",
        ElementUsage::StationMaintenance => b"station maintenance",
        ElementUsage::Idle => b"quiet window",
        _ => b"data opportunity",
    }
}

// The name of the colour and the pattern of a bar.
#[tactic(auto, unfolding(crate::specs::Bars::look_of))]
pub(crate) fn look_of(bar: Bar) -> &'static [u8]
    ensures { result.now ≡ look_of bar }
{
    if bar.met {
        met_look(bar.usage)
    } else if bar.unsolicited {
        b"unsolicited"
    } else if is_open_idle(bar.allocation) {
        b"open"
    } else {
        usage_look(bar.usage)
    }
}

// The words of a bar.
#[tactic(auto, unfolding(crate::specs::Bars::words_in))]
pub(crate) fn words_in(bar: Bar) -> &'static [u8]
    ensures { result.now ≡ words_in bar }
{
    if bar.met {
        met_words(bar.usage)
    } else if is_open_idle(bar.allocation) {
        b"open idle"
    } else {
        bar.usage.words()
    }
}

// What a bar says before the words of its usage.
#[tactic(auto, unfolding(crate::specs::Bars::origin_of))]
pub(crate) fn origin_of(bar: Bar) -> &'static [u8]
    ensures { result.now ≡ origin_of bar }
{
    if bar.unsolicited {
        b"unsolicited "
    } else {
        b""
    }
}

// Whether a bar bears its SID and has its shade: it is not that of all modems or of none.
#[tactic(auto, unfolding(crate::specs::Bars::is_named))]
pub(crate) fn is_named(usage: ElementUsage) -> bool
    ensures { result ≡ is_named usage }
{
    !matches!(usage, ElementUsage::RequestRegion | ElementUsage::Idle)
}

// How many units an SID takes in a bar.
#[tactic(auto, unfolding(crate::specs::Bars::name_width))]
pub(crate) fn name_width(sid: u16) -> u32
    ensures { result ≡ name_width sid }
{
    match sid {
        0..=9 => 12,
        10..=99 => 20,
        100..=999 => 28,
        1000..=9999 => 36,
        _ => 44,
    }
}
