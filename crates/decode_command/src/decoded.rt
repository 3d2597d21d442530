//! What a text is: a payload or a frame, or why it is none.

ghost use Rattle.std.specs.Prelude.{◌≡◌, true, false, IfOk};
ghost use Rattle.wire_frame.specs.Request.{has_length};
ghost use Rattle.decode_command.specs.Decoded.{is_well, IsPayloadAs, IsCarriedAs, IsMapFrameAs, IsRequestAs};
ghost use Rattle.decode_command.specs.Decoded.{IsFrameAs, IsBytesAs, IsTextAs};

use crate::form::JsonForm;
use crate::frame::is_request_long;
use hex::FromHexError;
use map_codec::{DecodeFault, WireMap, decode};
use std::alloc::{AllocError, Global};
use wire_frame::{MapFrame, MapFrameFault, Request, RequestFault, read_map_frame};

/// What a text is.
#[derive(Debug, Drop)]
pub(crate) enum Decoded {
    /// The payload of a MAP.
    Map(WireMap),
    /// The frame of a MAP, and its sender's address.
    MapFrame([u8; 6], WireMap),
    /// The frame of a request.
    Request(Request),
    /// A payload with this fault, alone or in a frame.
    BadPayload(DecodeFault),
    /// A frame of another length than a request's, with this fault.
    BadMapFrame(MapFrameFault),
    /// A frame of the length of a request's, with this fault.
    BadRequest(RequestFault),
    /// No hexadecimal.
    BadHex(FromHexError),
    /// A line that is too long to be one.
    Long,
}

/// Whether it is a payload or a frame.
pub(crate) fn is_well(decoded: &Decoded) -> bool
    ensures { result ≡ is_well decoded.now }
{
    match decoded {
        Decoded::Map(_) | Decoded::MapFrame(..) | Decoded::Request(_) => true,
        Decoded::BadPayload(_)
        | Decoded::BadMapFrame(_)
        | Decoded::BadRequest(_)
        | Decoded::BadHex(_)
        | Decoded::Long => false,
    }
}

// What bytes are as a payload.
fn payload_of(alloc: Global, bytes: &[u8]) -> Result<Decoded, AllocError>
    ensures { IfOk result (IsPayloadAs bytes.now) }
{
    match decode(alloc, bytes) {
        Ok(map) => Ok(Decoded::Map(map)),
        Err(DecodeFault::Memory) => Err(AllocError),
        Err(fault) => Ok(Decoded::BadPayload(fault)),
    }
}

// What the frame of a payload is.
fn carried_by(alloc: Global, frame: &MapFrame<'_>) -> Result<Decoded, AllocError>
    ensures { IfOk result (IsCarriedAs frame.now.address frame.now.payload.now) }
{
    match decode(alloc, frame.payload) {
        Ok(map) => Ok(Decoded::MapFrame(frame.address, map)),
        Err(DecodeFault::Memory) => Err(AllocError),
        Err(fault) => Ok(Decoded::BadPayload(fault)),
    }
}

// What bytes are that have not the length of a request.
fn map_frame_of(alloc: Global, bytes: &[u8]) -> Result<Decoded, AllocError>
    ensures { IfOk result (IsMapFrameAs bytes.now) }
{
    match read_map_frame(bytes) {
        Ok(frame) => carried_by(alloc, &frame),
        Err(fault) => Ok(Decoded::BadMapFrame(fault)),
    }
}

// What bytes are that have the length of a request.
fn request_of(bytes: &[u8]) -> Decoded
    ensures { IsRequestAs bytes.now result }
{
    match Request::read(bytes) {
        Ok(request) => Decoded::Request(request),
        Err(fault) => Decoded::BadRequest(fault),
    }
}

// What bytes are as a frame.
fn frame_of(alloc: Global, bytes: &[u8]) -> Result<Decoded, AllocError>
    ensures { IfOk result (IsFrameAs bytes.now) }
{
    if is_request_long(bytes) {
        return Ok(request_of(bytes));
    }
    map_frame_of(alloc, bytes)
}

// What bytes are as what is asked for.
fn bytes_as(alloc: Global, form: JsonForm, bytes: &[u8]) -> Result<Decoded, AllocError>
    ensures { IfOk result (IsBytesAs form bytes.now) }
{
    match form {
        JsonForm::Payload => payload_of(alloc, bytes),
        JsonForm::Frame => frame_of(alloc, bytes),
    }
}

/// What a text is as what is asked for.
pub(crate) fn text_as(alloc: Global, form: JsonForm, text: &[u8]) -> Result<Decoded, AllocError>
    ensures { IfOk result (IsTextAs form text.now) }
{
    match hex::decode(alloc, text) {
        Ok(bytes) => bytes_as(alloc, form, &bytes),
        Err(FromHexError::OutOfMemory) => Err(AllocError),
        Err(fault) => Ok(Decoded::BadHex(fault)),
    }
}
