//! The first line of a segment, written.

ghost use Rattle.std.specs.Prelude.{◌≡◌, ◌<◌, ◌^◌, ◌++◌, ℕ, decimal, IfOk, OnOk};
ghost use Rattle.serde_json.specs.Written.{compact_text};
ghost use Rattle.minislots.specs.Config.{IsLawful};
ghost use Rattle.wire_frame.specs.Checksum.{IsCrc};
ghost use Rattle.channel_states.specs.Possible.{IsPossible};
ghost use Rattle.history_writing.specs.Fits.{ConfigFits};
ghost use Rattle.state_text.specs.StateText.{state_text};
ghost use Rattle.segment_line.specs.declared.segment.FirstLine.TheVariants.{Later};
ghost use Rattle.segment_line.specs.Fits.{SegmentFits};
ghost use Rattle.segment_line.specs.SegmentLine.{segment_data, IsSegmentText, IsSegmentLine, IsLineOf};
ghost use Rattle.segment_line.specs.Spelled.{config_front};

use crate::segment::Segment;
use history_writing::opening_text;
use itoa::Buffer;
use minislots::{Checked, Config};
use state_text::state_text;
use std::alloc::{AllocError, Global};
use wire_frame::crc;

/// The configuration as it is written: its numbers fit the types of their fields.
pub(crate) fn config_of(config: &Checked) -> Config
    ensures value { result ≡ config.now }
    ensures lawful { IsLawful config.now }
    ensures fits { ConfigFits config.now }
{
    config.config()
}

// The text of an object that has a configuration, without what closes it.
fn config_front(alloc: Global, config: &Checked) -> Result<Vec<u8>, AllocError>
    ensures ok { IfOk result (λ text. text.items ≡ config_front config.now) }
    ensures lawful { IsLawful config.now }
    ensures fits { ConfigFits config.now }
{
    let mut text = opening_text(alloc, &config_of(config))?;
    // Behind it stand a brace and a newline.
    text.truncate(text.len() - 2);
    Ok(text)
}

// Puts bytes and a number in decimal behind a text.
fn put_labelled(text: &mut Vec<u8>, label: &[u8], number: u64) -> Result<(), AllocError>
    ensures ok { OnOk result
        (text.new.items ≡ text.old.items ++ (label.now ++ decimal number)) }
    ensures fits { number < 2 ^ 64 }
{
    let mut buffer = Buffer::new();
    text.extend_from_slice(label)?;
    text.extend_from_slice(buffer.format(number).as_bytes())
}

/// The text of the object that the first line of a segment is, in which the checksum is that of the state's text.
pub(crate) fn segment_object(alloc: Global, segment: &Segment) -> Result<Vec<u8>, AllocError>
    ensures text { IfOk result (λ text. IsSegmentText segment.now text.items) }
    ensures any { IfOk result (λ text. (sum : ℕ) → IsCrc (state_text segment.now.state) sum →
        text.items ≡ compact_text (segment_data sum segment.now)) }
    ensures lawful { OnOk result (IsLawful segment.now.config) }
    ensures fits { OnOk result (SegmentFits segment.now) }
{
    let state = state_text(alloc, &segment.state)?;
    let front = config_front(alloc, &segment.config)?;
    let mut text = Vec::new(alloc);
    text.extend_from_slice(b"{\"segment\":")?;
    text.extend_from_slice(&front)?;
    put_labelled(&mut text, b",\"crc\":", u64::from(crc(&state)))?;
    put_labelled(&mut text, b",\"number\":", segment.number)?;
    text.extend_from_slice(b",\"state\":")?;
    text.extend_from_slice(&state)?;
    text.extend_from_slice(b"}}")?;
    Ok(text)
}

/// The first line of a segment, with its newline: JSON without spaces, keys in ascending order, all numbers whole, and
/// the checksum of the state's text.
pub fn segment_text(alloc: Global, segment: &Segment) -> Result<Vec<u8>, AllocError>
    // What is written is the line of the segment.
    ensures written { IfOk result (λ text. IsSegmentLine segment.now text.items) }

    // Where the state is possible and the number a later segment's, it is a first line of this segment.
    ensures again { IfOk result (λ text.
        1 < segment.now.number → IsPossible segment.now.config segment.now.state →
        IsLineOf (Later segment.now) text.items) }
{
    let mut text = segment_object(alloc, segment)?;
    text.push(b'\n')?;
    Ok(text)
}
