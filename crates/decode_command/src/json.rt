//! What a text is as JSON.

ghost use Rattle.std.specs.Prelude.{◌≡◌, ◌++◌, OnOk};
ghost use Rattle.decode_command.specs.Table.{number_of, index_of};
ghost use Rattle.decode_command.specs.ExplainedFault.{digit_of, behind_words};
ghost use Rattle.decode_command.specs.Frame.{request_fault_number, map_frame_fault_number};
ghost use Rattle.decode_command.specs.Json.{both_members, request_object, place_member, words_member};
ghost use Rattle.decode_command.specs.Json.{payload_members, payload_fault_object, frame_fault_object};
ghost use Rattle.decode_command.specs.Json.{hex_fault_object, long_object, request_fault_words, map_frame_fault_words};
ghost use Rattle.decode_command.specs.Json.{json_of};

use crate::decoded::Decoded;
use crate::explained_fault::{digit_of, fault_words, hex_words};
use crate::frame::{map_frame_fault_number, request_fault_number};
use crate::json_map::{push_labelled, push_line, push_map, push_map_frame, push_text};
use crate::table::{index_of, number_of};
use hex::FromHexError;
use map_codec::DecodeFault;
use std::alloc::AllocError;
use wire_frame::{MapFrameFault, Request, RequestFault};

// Two numbers under their titles, and the brace behind them.
#[tactic(auto, unfolding(crate::specs::Json::both_members))]
fn push_both(
    words: &mut Vec<u8>,
    title: &[u8],
    number: u16,
    other_title: &[u8],
    other: u16,
) -> Result<(), AllocError>
    ensures { OnOk result (words.new.items
        ≡ words.old.items ++ both_members title.now number other_title.now other) }
{
    push_labelled(words, title, u64::from(number))?;
    push_labelled(words, other_title, u64::from(other))?;
    push_text(words, b"}\n")
}

// A request.
fn push_request(words: &mut Vec<u8>, line: Option<u64>, request: Request) -> Result<(), AllocError>
    ensures { OnOk result (words.new.items ≡ words.old.items ++ request_object line request) }
{
    match request {
        Request::Minislots { number, sid } => {
            push_text(words, b"{\"kind\":\"request\"")?;
            push_line(words, line)?;
            push_both(words, b",\"sid\":", sid, b",\"slots\":", u16::from(number))
        }
        Request::Queue { number, sid } => {
            push_text(words, b"{\"kind\":\"queue\"")?;
            push_line(words, line)?;
            push_both(words, b",\"number\":", number, b",\"sid\":", sid)
        }
    }
}

// The beginning of an object of a fault.
fn push_place(words: &mut Vec<u8>, title: &[u8], place: Option<usize>) -> Result<(), AllocError>
    ensures { OnOk result (words.new.items ≡ words.old.items ++ place_member title.now place) }
{
    let Some(place) = place else {
        return push_text(words, b"{");
    };
    push_labelled(words, title, place as u64)?;
    push_text(words, b",")
}

// A place behind words, where there is one.
fn push_behind(words: &mut Vec<u8>, place: Option<usize>) -> Result<(), AllocError>
    ensures { OnOk result (words.new.items ≡ words.old.items ++ behind_words place) }
{
    let Some(place) = place else {
        return Ok(());
    };
    push_labelled(words, b" ", place as u64)?;
    push_text(words, b", counted from 0")
}

// What a fault means, and the brace behind it.
#[tactic(auto, unfolding(crate::specs::Json::words_member))]
fn push_words(words: &mut Vec<u8>, meaning: &[u8], place: Option<usize>) -> Result<(), AllocError>
    ensures { OnOk result (words.new.items
        ≡ words.old.items ++ words_member meaning.now place) }
{
    push_text(words, b",\"words\":\"")?;
    push_text(words, meaning)?;
    push_behind(words, place)?;
    push_text(words, b"\"}\n")
}

// That a fault is one of a payload, with the number of its line and its own.
#[tactic(auto, unfolding(crate::specs::Json::payload_members))]
fn push_payload_members(
    words: &mut Vec<u8>,
    line: Option<u64>,
    fault: DecodeFault,
) -> Result<(), AllocError>
    ensures { OnOk result (words.new.items ≡ words.old.items ++ payload_members line fault) }
{
    push_text(words, b"\"fault\":\"payload\"")?;
    push_line(words, line)?;
    push_labelled(words, b",\"number\":", number_of(fault))
}

// A fault of a payload.
#[tactic(auto, unfolding(crate::specs::Json::payload_fault_object))]
fn push_payload_fault(
    words: &mut Vec<u8>,
    line: Option<u64>,
    fault: DecodeFault,
) -> Result<(), AllocError>
    ensures { OnOk result (words.new.items ≡ words.old.items ++ payload_fault_object line fault) }
{
    push_place(words, b"{\"element\":", index_of(fault))?;
    push_payload_members(words, line, fault)?;
    push_words(words, fault_words(fault), index_of(fault))
}

// A fault of a frame.
#[tactic(auto, unfolding(crate::specs::Json::frame_fault_object))]
fn push_frame_fault(
    words: &mut Vec<u8>,
    line: Option<u64>,
    number: u64,
    meaning: &[u8],
) -> Result<(), AllocError>
    ensures { OnOk result (words.new.items
        ≡ words.old.items ++ frame_fault_object line number meaning.now) }
{
    push_text(words, b"{\"fault\":\"frame\"")?;
    push_line(words, line)?;
    push_labelled(words, b",\"number\":", number)?;
    push_words(words, meaning, None)
}

// A text that is no hexadecimal.
#[tactic(auto, unfolding(crate::specs::Json::hex_fault_object))]
fn push_hex_fault(
    words: &mut Vec<u8>,
    line: Option<u64>,
    fault: FromHexError,
) -> Result<(), AllocError>
    ensures { OnOk result (words.new.items ≡ words.old.items ++ hex_fault_object line fault) }
{
    push_place(words, b"{\"byte\":", digit_of(fault))?;
    push_text(words, b"\"fault\":\"hex\"")?;
    push_line(words, line)?;
    push_words(words, hex_words(fault), digit_of(fault))
}

// A line that is too long.
#[tactic(auto, unfolding(crate::specs::Json::long_object))]
fn push_long(words: &mut Vec<u8>, line: Option<u64>) -> Result<(), AllocError>
    ensures { OnOk result (words.new.items ≡ words.old.items ++ long_object line) }
{
    push_text(words, b"{\"fault\":\"long\"")?;
    push_line(words, line)?;
    push_words(words, b"it has more than 65536 bytes", None)
}

// What a fault of a request's frame means.
fn request_fault_words(fault: RequestFault) -> &'static [u8]
    ensures { result.now ≡ request_fault_words fault }
{
    match fault {
        RequestFault::Length => b"the frame has neither 6 bytes nor 7",
        RequestFault::Kind => b"the first byte is of no request of this length",
        RequestFault::Sid => b"the SID has more than 14 bits",
        RequestFault::Hcs => b"the header check sequence is wrong",
    }
}

// What a fault of a MAP's frame means.
fn map_frame_fault_words(fault: MapFrameFault) -> &'static [u8]
    ensures { result.now ≡ map_frame_fault_words fault }
{
    match fault {
        MapFrameFault::Length =>
            b"the frame has another length than it says, or fewer than 30 bytes",
        MapFrameFault::Kind => b"the first two bytes are of no management message",
        MapFrameFault::Hcs => b"the header check sequence is wrong",
        MapFrameFault::Crc => b"the checksum of the message is wrong",
        MapFrameFault::Header => b"a field of the management header is not that of a MAP",
    }
}

/// Puts what a text is, or the line of this number, behind a text.
pub(crate) fn push_json(
    words: &mut Vec<u8>,
    line: Option<u64>,
    decoded: &Decoded,
) -> Result<(), AllocError>
    ensures { OnOk result (words.new.items ≡ words.old.items ++ json_of line decoded.now) }
{
    match decoded {
        Decoded::Map(map) => push_map(words, line, map),
        Decoded::MapFrame(address, map) => push_map_frame(words, line, address, map),
        Decoded::Request(request) => push_request(words, line, *request),
        Decoded::BadPayload(fault) => push_payload_fault(words, line, *fault),
        Decoded::BadMapFrame(fault) => {
            let number = map_frame_fault_number(*fault);
            push_frame_fault(words, line, number, map_frame_fault_words(*fault))
        }
        Decoded::BadRequest(fault) => {
            let number = request_fault_number(*fault);
            push_frame_fault(words, line, number, request_fault_words(*fault))
        }
        Decoded::BadHex(fault) => push_hex_fault(words, line, *fault),
        Decoded::Long => push_long(words, line),
    }
}
