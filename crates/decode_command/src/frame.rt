//! What a whole frame is, for a text in hexadecimal: the frame of a MAP, or a request's.

ghost use Rattle.std.specs.Prelude.{◌≡◌, ◌%◌, ◌↔◌, ◌⊎◌, ◌++◌, ◌∷◌, [], length, OnOk, IfOk, IfErr, IsTrue, false};
ghost use Rattle.std.specs.Bool.{MatchBool};
ghost use Rattle.std.specs.List.{flat_map};
ghost use Rattle.hex.specs.Hex.{encode_lower};
ghost use Rattle.std.specs.Io.KnownBytes.{Appends};
ghost use Rattle.map_codec.specs.WireMap.{IsPayload, IsWellFormed};
ghost use Rattle.wire_frame.specs.Request.{has_length};
ghost use Rattle.text_stream.specs.Writing.{Writes};
ghost use Rattle.text_stream.specs.RunFault.{TellsFailedWrite};
ghost use Rattle.decode_command.specs.Table.{shown_text};
ghost use Rattle.decode_command.specs.ExplainedFault.{PutsFault};
ghost use Rattle.decode_command.specs.Frame.{kind_line, request_line, byte_text, address_text, map_frame_line};
ghost use Rattle.decode_command.specs.Frame.{request_fault_number, map_frame_fault_number, frame_fault_line};
ghost use Rattle.decode_command.specs.Frame.{PutsFrame, PutsFrameFault, PutsMapFrame, PutsCarried};
ghost use Rattle.decode_command.specs.Frame.{IsFrame, CarriesMap, IsHexOfFrame, ShowsFrame, ShowsFrameFault};

use crate::table::{put_fault, put_labelled, put_table};
use hex::FromHexError;
use map_codec::{DecodeFault, WireMap, decode};
use map_drawing::draw_frame;
use std::alloc::Global;
use text_stream::{RunFault, Sink, TextFault, put};
use wire_frame::{MapFrame, MapFrameFault, Request, RequestFault, read_map_frame};

// A kind, a SID and a number.
#[tactic(auto, unfolding(crate::specs::Frame::kind_line))]
fn put_kind<W: Sink>(writer: &mut W, kind: &[u8], sid: u16, number: u16) -> Result<(), TextFault>
    ensures { Writes W.contents W.has_failed writer.old writer.new
        (kind_line kind.now sid number) result }
{
    put_labelled(writer, kind, u64::from(sid))?;
    put_labelled(writer, b" ", u64::from(number))?;
    put(writer, b"\n")
}

// The line of a request.
fn put_request<W: Sink>(writer: &mut W, request: Request) -> Result<(), TextFault>
    ensures { Writes W.contents W.has_failed writer.old writer.new (request_line request) result }
{
    match request {
        Request::Minislots { number, sid } => put_kind(
            writer,
            b"frame request ",
            sid,
            u16::from(number),
        ),
        Request::Queue { number, sid } => put_kind(writer, b"frame queue ", sid, number),
    }
}

// A byte in hexadecimal.
pub(crate) fn digits_of(byte: u8) -> [u8; 2]
    ensures { result ≡ encode_lower (byte ∷ []) }
{
    let mut digits = [0u8; 2];
    hex::encode_to_slice([byte], &mut digits).unwrap();
    digits
}

// Bytes in hexadecimal, each behind a colon.
#[tactic(auto, unfolding(crate::specs::Frame::byte_text))]
fn put_bytes<W: Sink>(writer: &mut W, bytes: &[u8]) -> Result<(), TextFault>
    ensures { Writes W.contents W.has_failed writer.old writer.new
        (flat_map byte_text bytes.now) result }
{
    for byte in bytes {
        put(writer, b":")?;
        put(writer, &digits_of(*byte))?;
    }
    Ok(())
}

// The line of a MAP's frame from an address.
fn put_address<W: Sink>(writer: &mut W, address: &[u8; 6]) -> Result<(), TextFault>
    ensures { Writes W.contents W.has_failed writer.old writer.new
        (map_frame_line address.now) result }
{
    put(writer, b"frame map ")?;
    put(writer, &digits_of(address[0]))?;
    put_bytes(writer, &address[1..])?;
    put(writer, b"\n")
}

// The line of a fault of a frame.
#[tactic(auto, unfolding(crate::specs::Frame::frame_fault_line))]
fn put_frame_fault<W: Sink>(writer: &mut W, number: u64) -> Result<(), TextFault>
    ensures { Writes W.contents W.has_failed writer.old writer.new
        (frame_fault_line number) result }
{
    put_labelled(writer, b"fault frame ", number)?;
    put(writer, b"\n")
}

// The number of a request's fault among those of all frames.
pub(crate) fn request_fault_number(fault: RequestFault) -> u64
    ensures { result ≡ request_fault_number fault }
{
    match fault {
        RequestFault::Length => 1,
        RequestFault::Kind => 2,
        RequestFault::Sid => 3,
        RequestFault::Hcs => 4,
    }
}

// The number of a fault of a MAP's frame among those of all frames.
pub(crate) fn map_frame_fault_number(fault: MapFrameFault) -> u64
    ensures { result ≡ map_frame_fault_number fault }
{
    match fault {
        MapFrameFault::Length => 1,
        MapFrameFault::Kind => 2,
        MapFrameFault::Hcs => 4,
        MapFrameFault::Crc => 5,
        MapFrameFault::Header => 6,
    }
}

// The address that a MAP is from and its table, and its drawing where one in so many columns is asked for.
fn put_map_from<W: Sink>(
    alloc: Global,
    address: &[u8; 6],
    map: &WireMap,
    columns: Option<u16>,
    writer: &mut W,
) -> Result<(), RunFault>
    requires { IsWellFormed map.now }
    ensures ok { OnOk result (Appends (W.contents writer.old) (W.contents writer.new)
        (map_frame_line address.now ++ shown_text columns map.now)) }
    ensures err { IfErr result
        (λ e. (e ≡ RunFault.Text TextFault.Memory) ⊎ (e ≡ RunFault.Text TextFault.Output)) }
    ensures failed { TellsFailedWrite result (W.has_failed writer.old) (W.has_failed writer.new) }
    ensures quiet { IfErr result
        (λ e. e ≡ RunFault.Text TextFault.Memory → writer.new ≡ writer.old) }
{
    let Some(columns) = columns else {
        put_address(writer, address)?;
        put_table(writer, map)?;
        return Ok(());
    };
    let Ok(drawing) = draw_frame(alloc, map, columns) else {
        return Err(RunFault::Text(TextFault::Memory));
    };
    put_address(writer, address)?;
    put_table(writer, map)?;
    put(writer, &drawing)?;
    Ok(())
}

// What is shown of a payload in a frame: the MAP that it spells, or the line of its fault.
fn put_carried<W: Sink>(
    alloc: Global,
    frame: &MapFrame<'_>,
    columns: Option<u16>,
    writer: &mut W,
) -> Result<bool, RunFault>
    ensures exact { IfOk result
        (λ is_payload. IsTrue is_payload ↔ IsPayload frame.now.payload.now) }
    ensures shown { IfOk result (λ is_payload. MatchBool is_payload
        (PutsCarried columns frame.now.address frame.now.payload.now
        (W.contents writer.old) (W.contents writer.new))
        (PutsFault false frame.now.payload.now (W.contents writer.old) (W.contents writer.new))) }
    ensures err { IfErr result
        (λ e. (e ≡ RunFault.Text TextFault.Memory) ⊎ (e ≡ RunFault.Text TextFault.Output)) }
    ensures failed { TellsFailedWrite result (W.has_failed writer.old) (W.has_failed writer.new) }
    ensures quiet { IfErr result
        (λ e. e ≡ RunFault.Text TextFault.Memory → writer.new ≡ writer.old) }
{
    match decode(alloc, frame.payload) {
        Ok(map) => {
            put_map_from(alloc, &frame.address, &map, columns, writer)?;
            Ok(true)
        }
        Err(DecodeFault::Memory) => Err(RunFault::Text(TextFault::Memory)),
        Err(fault) => {
            put_fault(writer, fault)?;
            Ok(false)
        }
    }
}

// What is shown of bytes that have not the length of a request: the MAP whose frame they are, or the line of the fault.
fn put_map_frame<W: Sink>(
    alloc: Global,
    bytes: &[u8],
    columns: Option<u16>,
    writer: &mut W,
) -> Result<bool, RunFault>
    requires { has_length bytes.now ≡ false }
    ensures exact { IfOk result (λ is_frame. IsTrue is_frame ↔ CarriesMap bytes.now) }
    ensures shown { IfOk result (λ is_frame. MatchBool is_frame
        (PutsMapFrame columns bytes.now (W.contents writer.old) (W.contents writer.new))
        (PutsFrameFault bytes.now (W.contents writer.old) (W.contents writer.new))) }
    ensures err { IfErr result
        (λ e. (e ≡ RunFault.Text TextFault.Memory) ⊎ (e ≡ RunFault.Text TextFault.Output)) }
    ensures failed { TellsFailedWrite result (W.has_failed writer.old) (W.has_failed writer.new) }
    ensures quiet { IfErr result
        (λ e. e ≡ RunFault.Text TextFault.Memory → writer.new ≡ writer.old) }
{
    match read_map_frame(bytes) {
        Ok(frame) => put_carried(alloc, &frame, columns, writer),
        Err(fault) => {
            put_frame_fault(writer, map_frame_fault_number(fault))?;
            Ok(false)
        }
    }
}

// Whether bytes have the length of a request.
pub(crate) fn is_request_long(bytes: &[u8]) -> bool
    ensures { result ≡ has_length bytes.now }
{
    bytes.len() == 6 || bytes.len() == 7
}

// What is shown of bytes: the frame that they are, or the line of their first fault.
fn put_frame<W: Sink>(
    alloc: Global,
    bytes: &[u8],
    columns: Option<u16>,
    writer: &mut W,
) -> Result<bool, RunFault>
    ensures exact { IfOk result (λ is_frame. IsTrue is_frame ↔ IsFrame bytes.now) }
    ensures shown { IfOk result (λ is_frame. MatchBool is_frame
        (PutsFrame columns bytes.now (W.contents writer.old) (W.contents writer.new))
        (PutsFrameFault bytes.now (W.contents writer.old) (W.contents writer.new))) }
    ensures err { IfErr result
        (λ e. (e ≡ RunFault.Text TextFault.Memory) ⊎ (e ≡ RunFault.Text TextFault.Output)) }
    ensures failed { TellsFailedWrite result (W.has_failed writer.old) (W.has_failed writer.new) }
    ensures quiet { IfErr result
        (λ e. e ≡ RunFault.Text TextFault.Memory → writer.new ≡ writer.old) }
{
    if !is_request_long(bytes) {
        return put_map_frame(alloc, bytes, columns, writer);
    }
    match Request::read(bytes) {
        Ok(request) => {
            put_request(writer, request)?;
            Ok(true)
        }
        Err(fault) => {
            put_frame_fault(writer, request_fault_number(fault))?;
            Ok(false)
        }
    }
}

// Reads digits as [`decode_frame`] does its text.
pub(crate) fn decode_frame_digits<W: Sink>(
    alloc: Global,
    text: &[u8],
    columns: Option<u16>,
    writer: &mut W,
) -> Result<bool, RunFault>
    ensures exact { IfOk result (λ is_frame. IsTrue is_frame ↔ IsHexOfFrame text.now) }
    ensures shown { IfOk result (λ is_frame. MatchBool is_frame
        (ShowsFrame columns text.now (W.contents writer.old) (W.contents writer.new))
        (ShowsFrameFault text.now (W.contents writer.old) (W.contents writer.new))) }
    ensures err { IfErr result
        (λ e. (e ≡ RunFault.Text TextFault.Memory) ⊎ (e ≡ RunFault.Text TextFault.Output)) }
    ensures failed { TellsFailedWrite result (W.has_failed writer.old) (W.has_failed writer.new) }
    ensures quiet { IfErr result
        (λ e. e ≡ RunFault.Text TextFault.Memory → writer.new ≡ writer.old) }
    ensures odd { length text.now % 2 ≡ 1 → IfErr result (λ e. e ≡ RunFault.Text TextFault.Output) }
{
    match hex::decode(alloc, text) {
        Ok(bytes) => put_frame(alloc, &bytes, columns, writer),
        Err(FromHexError::OutOfMemory) => Err(RunFault::Text(TextFault::Memory)),
        Err(_) => {
            put(writer, b"fault hex\n")?;
            Ok(false)
        }
    }
}

/// Whether a text is hexadecimal of a whole frame.
pub(crate) fn is_hex_of_frame(alloc: Global, text: &[u8]) -> Result<bool, RunFault>
    ensures { IfOk result (λ is_frame. IsTrue is_frame ↔ IsHexOfFrame text.now) }
{
    let mut shown = Vec::new(alloc);
    decode_frame_digits(alloc, text, None, &mut shown)
}

/// Reads a text as hexadecimal, digits of both cases, and writes what frame it is, answering true: of a MAP's frame
/// the line `frame map` with the sender's address, and then the table of its payload as
/// [`decode_text`](crate::decode_text) does, with the drawing where one in so many columns is asked for; of a request
/// frame the line `frame request` with the SID and the number of minislots; of a queue-depth request frame the line
/// `frame queue` with the SID and the number. Or the one line of what is wrong with it, answering false: `fault hex`;
/// `fault frame` and the number of the first fault, 1 length, 2 kind, 3 SID, 4 HCS, 5 CRC, 6 a field of the management
/// header; or the fault of the payload.
pub fn decode_frame<W: Sink>(
    alloc: Global,
    text: &str,
    columns: Option<u16>,
    writer: &mut W,
) -> Result<bool, RunFault>
    // True is answered exactly where the text is hexadecimal of a frame.
    ensures exact { IfOk result (λ is_frame. IsTrue is_frame ↔ IsHexOfFrame text.now) }

    // What was written is what is shown of the frame, or the line of the first fault, and nothing else.
    ensures shown { IfOk result (λ is_frame. MatchBool is_frame
        (ShowsFrame columns text.now (W.contents writer.old) (W.contents writer.new))
        (ShowsFrameFault text.now (W.contents writer.old) (W.contents writer.new))) }

    // No other fault ends it; out of memory only before anything is written, and not where the digits are odd in
    // number.
    ensures err { IfErr result
        (λ e. (e ≡ RunFault.Text TextFault.Memory) ⊎ (e ≡ RunFault.Text TextFault.Output)) }
    ensures failed { TellsFailedWrite result (W.has_failed writer.old) (W.has_failed writer.new) }
    ensures quiet { IfErr result
        (λ e. e ≡ RunFault.Text TextFault.Memory → writer.new ≡ writer.old) }
    ensures odd { length text.now % 2 ≡ 1 → IfErr result (λ e. e ≡ RunFault.Text TextFault.Output) }
{
    decode_frame_digits(alloc, text.as_bytes(), columns, writer)
}
