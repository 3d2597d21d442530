//! A MAP as JSON.

ghost use Rattle.std.specs.Prelude.{◌≡◌, ◌++◌, flat_map, OnOk};
ghost use Rattle.decode_command.specs.Table.{labelled};
ghost use Rattle.decode_command.specs.Frame.{byte_text, address_text};
ghost use Rattle.decode_command.specs.Json.{line_member, element_object, next_element, element_items, data_members};
ghost use Rattle.decode_command.specs.Json.{front_members, elements_member, middle_members, window_members};
ghost use Rattle.decode_command.specs.Json.{sender_member, last_members, map_object, map_frame_object};

use crate::frame::digits_of;
use crate::table::name_of;
use itoa::Buffer;
use map_codec::{Element, WireMap};
use std::alloc::AllocError;

/// Puts a text behind another.
pub(crate) fn push_text(words: &mut Vec<u8>, text: &[u8]) -> Result<(), AllocError>
    ensures { OnOk result (words.new.items ≡ words.old.items ++ text.now) }
{
    words.extend_from_slice(text)
}

/// Puts a label and a number in decimal behind a text.
#[tactic(auto, unfolding(crate::specs::Table::labelled))]
pub(crate) fn push_labelled(
    words: &mut Vec<u8>,
    label: &[u8],
    number: u64,
) -> Result<(), AllocError>
    ensures { OnOk result (words.new.items ≡ words.old.items ++ labelled label.now number) }
{
    let mut buffer = Buffer::new();
    push_text(words, label)?;
    push_text(words, buffer.format(number).as_bytes())
}

/// Puts the number of a line behind a text, where there is one.
pub(crate) fn push_line(words: &mut Vec<u8>, line: Option<u64>) -> Result<(), AllocError>
    ensures { OnOk result (words.new.items ≡ words.old.items ++ line_member line) }
{
    let Some(number) = line else {
        return Ok(());
    };
    push_labelled(words, b",\"line\":", number)
}

// An element.
#[tactic(auto, unfolding(crate::specs::Json::element_object))]
fn push_element(words: &mut Vec<u8>, element: &Element) -> Result<(), AllocError>
    ensures { OnOk result (words.new.items ≡ words.old.items ++ element_object element.now) }
{
    push_labelled(words, b"{\"iuc\":", u64::from(element.iuc))?;
    push_labelled(words, b",\"offset\":", u64::from(element.offset))?;
    push_labelled(words, b",\"sid\":", u64::from(element.sid))?;
    push_text(words, b",\"usage\":\"")?;
    push_text(words, name_of(element.iuc))?;
    push_text(words, b"\"}")
}

// An element behind a comma.
#[tactic(auto, unfolding(crate::specs::Json::next_element))]
fn push_next(words: &mut Vec<u8>, element: &Element) -> Result<(), AllocError>
    ensures { OnOk result (words.new.items ≡ words.old.items ++ next_element element.now) }
{
    push_text(words, b",")?;
    push_element(words, element)
}

// Elements, each behind a comma.
fn push_others(words: &mut Vec<u8>, elements: &[Element]) -> Result<(), AllocError>
    ensures { OnOk result (words.new.items
        ≡ words.old.items ++ flat_map next_element elements.now) }
{
    for element in elements {
        push_next(words, element)?;
    }
    Ok(())
}

// Elements, with a comma between two.
fn push_elements(words: &mut Vec<u8>, elements: &[Element]) -> Result<(), AllocError>
    ensures { OnOk result (words.new.items ≡ words.old.items ++ element_items elements.now) }
{
    let Some((first, others)) = elements.split_first() else {
        return Ok(());
    };
    push_element(words, first)?;
    push_others(words, others)
}

// The backoff window for requests and data.
#[tactic(auto, unfolding(crate::specs::Json::data_members))]
fn push_data(words: &mut Vec<u8>, map: &WireMap) -> Result<(), AllocError>
    ensures { OnOk result (words.new.items ≡ words.old.items ++ data_members map.now) }
{
    push_labelled(words, b",\"data_end\":", u64::from(map.data_end))?;
    push_labelled(words, b",\"data_start\":", u64::from(map.data_start))
}

// The members of a MAP before those of an address.
#[tactic(auto, unfolding(crate::specs::Json::front_members))]
fn push_front(words: &mut Vec<u8>, map: &WireMap) -> Result<(), AllocError>
    ensures { OnOk result (words.new.items ≡ words.old.items ++ front_members map.now) }
{
    push_labelled(words, b"{\"ack\":", u64::from(map.ack))?;
    push_labelled(words, b",\"channel\":", u64::from(map.channel))?;
    push_data(words, map)
}

// The elements of a MAP.
#[tactic(auto, unfolding(crate::specs::Json::elements_member))]
fn push_all(words: &mut Vec<u8>, elements: &[Element]) -> Result<(), AllocError>
    ensures { OnOk result (words.new.items ≡ words.old.items ++ elements_member elements.now) }
{
    push_text(words, b",\"elements\":[")?;
    push_elements(words, elements)?;
    push_text(words, b"]")
}

// The elements of a MAP, its kind, and the number of its line.
#[tactic(auto, unfolding(crate::specs::Json::middle_members))]
fn push_middle(words: &mut Vec<u8>, line: Option<u64>, map: &WireMap) -> Result<(), AllocError>
    ensures { OnOk result (words.new.items ≡ words.old.items ++ middle_members line map.now) }
{
    push_all(words, map.elements.as_slice())?;
    push_text(words, b",\"kind\":\"map\"")?;
    push_line(words, line)
}

// The members of a MAP between its line and the sender.
#[tactic(auto, unfolding(crate::specs::Json::window_members))]
fn push_window(words: &mut Vec<u8>, map: &WireMap) -> Result<(), AllocError>
    ensures { OnOk result (words.new.items ≡ words.old.items ++ window_members map.now) }
{
    push_labelled(words, b",\"ranging_end\":", u64::from(map.ranging_end))?;
    push_labelled(words, b",\"ranging_start\":", u64::from(map.ranging_start))?;
    push_labelled(words, b",\"reserved\":", u64::from(map.reserved))
}

// Bytes in hexadecimal, each behind a colon.
#[tactic(auto, unfolding(crate::specs::Frame::byte_text))]
fn push_bytes(words: &mut Vec<u8>, bytes: &[u8]) -> Result<(), AllocError>
    ensures { OnOk result (words.new.items ≡ words.old.items ++ flat_map byte_text bytes.now) }
{
    for byte in bytes {
        push_text(words, b":")?;
        push_text(words, &digits_of(*byte))?;
    }
    Ok(())
}

// An address.
fn push_address(words: &mut Vec<u8>, address: &[u8; 6]) -> Result<(), AllocError>
    ensures { OnOk result (words.new.items ≡ words.old.items ++ address_text address.now) }
{
    push_text(words, &digits_of(address[0]))?;
    push_bytes(words, &address[1..])
}

// The sender of a frame.
#[tactic(auto, unfolding(crate::specs::Json::sender_member))]
fn push_sender(words: &mut Vec<u8>, address: &[u8; 6]) -> Result<(), AllocError>
    ensures { OnOk result (words.new.items ≡ words.old.items ++ sender_member address.now) }
{
    push_text(words, b",\"sender\":\"")?;
    push_address(words, address)?;
    push_text(words, b"\"")
}

// The last members of a MAP, and the brace behind them.
#[tactic(auto, unfolding(crate::specs::Json::last_members))]
fn push_last(words: &mut Vec<u8>, map: &WireMap) -> Result<(), AllocError>
    ensures { OnOk result (words.new.items ≡ words.old.items ++ last_members map.now) }
{
    push_labelled(words, b",\"start\":", u64::from(map.alloc_start))?;
    push_labelled(words, b",\"ucd_count\":", u64::from(map.ucd_count))?;
    push_text(words, b"}\n")
}

/// Puts the MAP of a payload behind a text.
#[tactic(auto, unfolding(crate::specs::Json::map_object))]
pub(crate) fn push_map(
    words: &mut Vec<u8>,
    line: Option<u64>,
    map: &WireMap,
) -> Result<(), AllocError>
    ensures { OnOk result (words.new.items ≡ words.old.items ++ map_object line map.now) }
{
    push_front(words, map)?;
    push_middle(words, line, map)?;
    push_window(words, map)?;
    push_last(words, map)
}

/// Puts the MAP of a frame behind a text.
#[tactic(auto, unfolding(crate::specs::Json::map_frame_object))]
pub(crate) fn push_map_frame(
    words: &mut Vec<u8>,
    line: Option<u64>,
    address: &[u8; 6],
    map: &WireMap,
) -> Result<(), AllocError>
    ensures { OnOk result (words.new.items
        ≡ words.old.items ++ map_frame_object line address.now map.now) }
{
    push_front(words, map)?;
    push_text(words, b",\"destination\":\"01:e0:2f:00:00:01\"")?;
    push_middle(words, line, map)?;
    push_window(words, map)?;
    push_sender(words, address)?;
    push_last(words, map)
}
