//! The table of a MAP, for a text in hexadecimal.

ghost use Rattle.std.specs.Prelude.{◌≡◌, ◌%◌, ◌≤◌, ◌↔◌, ◌⊎◌, length, OnOk, IfOk, IfErr, IsTrue};
ghost use Rattle.std.specs.Bool.{MatchBool};
ghost use Rattle.std.specs.Io.KnownBytes.{Appends};
ghost use Rattle.map_codec.specs.WireMap.{IsPayload, IsWellFormed};
ghost use Rattle.text_stream.specs.Writing.{Writes};
ghost use Rattle.text_stream.specs.RunFault.{TellsFailedWrite};
ghost use Rattle.decode_command.specs.Table.{labelled, backoff_text, at_right, column, name_of, number_of, index_of};
ghost use Rattle.decode_command.specs.Table.{counts_line, times_line, element_line, element_lines};
ghost use Rattle.decode_command.specs.Table.{table_text, shown_text, fault_line};
ghost use Rattle.decode_command.specs.Table.{IsHexOfPayload, PutsMap, ShowsMap};
ghost use Rattle.decode_command.specs.ExplainedFault.{PutsFault, ShowsFault};

use crate::explained_fault::{put_fault_text, put_hex_text};
use hex::FromHexError;
use itoa::Buffer;
use map_codec::{DecodeFault, Element, WireMap, decode, iuc};
use map_drawing::draw_frame;
use std::alloc::Global;
use text_stream::{RunFault, Sink, TextFault, put};

// As many spaces as the widest column has places.
const SPACES: [u8; 5] = [b' '; 5];

// A label, and a number in decimal.
#[tactic(auto, unfolding(crate::specs::Table::labelled))]
pub(crate) fn put_labelled<W: Sink>(
    writer: &mut W,
    label: &[u8],
    number: u64,
) -> Result<(), TextFault>
    ensures { Writes W.contents W.has_failed writer.old writer.new
        (labelled label.now number) result }
{
    let mut buffer = Buffer::new();
    put(writer, label)?;
    put(writer, buffer.format(number).as_bytes())
}

// A number in decimal at the right of so many places.
#[tactic(auto, unfolding(crate::specs::Table::at_right))]
fn put_at_right<W: Sink>(writer: &mut W, places: usize, number: u16) -> Result<(), TextFault>
    requires { places ≤ 5 }
    ensures { Writes W.contents W.has_failed writer.old writer.new (at_right places number) result }
{
    let mut buffer = Buffer::new();
    let digits = buffer.format(number).as_bytes();
    put(writer, &SPACES[..places.saturating_sub(digits.len())])?;
    put(writer, digits)
}

// A column: a number at the right of so many places, and a space.
#[tactic(auto, unfolding(crate::specs::Table::column))]
fn put_column<W: Sink>(writer: &mut W, places: usize, number: u16) -> Result<(), TextFault>
    requires { places ≤ 5 }
    ensures { Writes W.contents W.has_failed writer.old writer.new (column places number) result }
{
    put_at_right(writer, places, number)?;
    put(writer, b" ")
}

// The name of an interval usage code.
#[tactic(auto, unfolding(crate::specs::Table::name_of))]
pub(crate) fn name_of(code: u8) -> &'static [u8]
    ensures { result.now ≡ name_of code }
{
    match code {
        iuc::REQUEST => b"request",
        iuc::REQUEST_DATA => b"request_data",
        iuc::INITIAL_MAINTENANCE => b"initial",
        iuc::STATION_MAINTENANCE => b"station",
        iuc::SHORT_DATA_GRANT => b"short",
        iuc::LONG_DATA_GRANT => b"long",
        iuc::NULL => b"null",
        iuc::DATA_ACKNOWLEDGE => b"data_ack",
        iuc::ADVANCED_SHORT_DATA_GRANT => b"aphy_short",
        iuc::ADVANCED_LONG_DATA_GRANT => b"aphy_long",
        iuc::ADVANCED_UNSOLICITED_GRANT => b"aphy_ug",
        _ => b"reserved",
    }
}

// The first line of a table: the channel, the UCD count and the number of elements.
#[tactic(auto, unfolding(crate::specs::Table::counts_line))]
fn put_counts<W: Sink>(writer: &mut W, map: &WireMap) -> Result<(), TextFault>
    ensures { Writes W.contents W.has_failed writer.old writer.new (counts_line map.now) result }
{
    put_labelled(writer, b"channel ", u64::from(map.channel))?;
    put_labelled(writer, b" ucd ", u64::from(map.ucd_count))?;
    put_labelled(writer, b" elements ", map.elements.len() as u64)?;
    put_labelled(writer, b" reserved ", u64::from(map.reserved))?;
    put(writer, b"\n")
}

// A backoff window: a label, its start and its end.
#[tactic(auto, unfolding(crate::specs::Table::backoff_text))]
fn put_backoff<W: Sink>(writer: &mut W, label: &[u8], start: u8, end: u8) -> Result<(), TextFault>
    ensures { Writes W.contents W.has_failed writer.old writer.new
        (backoff_text label.now start end) result }
{
    put_labelled(writer, label, u64::from(start))?;
    put_labelled(writer, b" ", u64::from(end))
}

// The second line of a table: alloc start, acknowledge time and the two backoff windows.
#[tactic(auto, unfolding(crate::specs::Table::times_line))]
fn put_times<W: Sink>(writer: &mut W, map: &WireMap) -> Result<(), TextFault>
    ensures { Writes W.contents W.has_failed writer.old writer.new (times_line map.now) result }
{
    put_labelled(writer, b"start ", u64::from(map.alloc_start))?;
    put_labelled(writer, b" ack ", u64::from(map.ack))?;
    put_backoff(writer, b" ranging ", map.ranging_start, map.ranging_end)?;
    put_backoff(writer, b" data ", map.data_start, map.data_end)?;
    put(writer, b"\n")
}

// The line of an element: SID, IUC, offset and the IUC's name.
#[tactic(auto, unfolding(crate::specs::Table::element_line))]
fn put_element<W: Sink>(writer: &mut W, element: &Element) -> Result<(), TextFault>
    ensures { Writes W.contents W.has_failed writer.old writer.new
        (element_line element.now) result }
{
    put_column(writer, 5, element.sid)?;
    put_column(writer, 2, u16::from(element.iuc))?;
    put_column(writer, 5, element.offset)?;
    put(writer, name_of(element.iuc))?;
    put(writer, b"\n")
}

// The lines of elements.
fn put_elements<W: Sink>(writer: &mut W, elements: &[Element]) -> Result<(), TextFault>
    ensures { Writes W.contents W.has_failed writer.old writer.new
        (element_lines elements.now) result }
{
    for element in elements {
        put_element(writer, element)?;
    }
    Ok(())
}

/// Writes the table of a MAP: two lines of its header, and a line for each element.
#[tactic(auto, unfolding(crate::specs::Table::table_text))]
pub fn put_table<W: Sink>(writer: &mut W, map: &WireMap) -> Result<(), TextFault>
    ensures { Writes W.contents W.has_failed writer.old writer.new (table_text map.now) result }
{
    put_counts(writer, map)?;
    put_times(writer, map)?;
    put_elements(writer, map.elements.as_slice())
}

// The number of a fault.
pub(crate) fn number_of(fault: DecodeFault) -> u64
    ensures { result ≡ number_of fault }
{
    match fault {
        DecodeFault::Short => 1,
        DecodeFault::TooMany => 2,
        DecodeFault::WrongLength => 3,
        DecodeFault::Expansion(_) => 4,
        DecodeFault::Descending(_) => 5,
        DecodeFault::NoNull => 6,
        DecodeFault::SecondNull(_) => 7,
        DecodeFault::Memory => 8,
    }
}

// The place of the element that a fault names.
pub(crate) fn index_of(fault: DecodeFault) -> Option<usize>
    ensures { result ≡ index_of fault }
{
    match fault {
        DecodeFault::Expansion(i) | DecodeFault::Descending(i) | DecodeFault::SecondNull(i) => {
            Some(i)
        }
        _ => None,
    }
}

// The line of a fault.
#[tactic(auto, unfolding(crate::specs::Table::fault_line))]
pub(crate) fn put_fault<W: Sink>(writer: &mut W, fault: DecodeFault) -> Result<(), TextFault>
    ensures { Writes W.contents W.has_failed writer.old writer.new (fault_line fault) result }
{
    put_labelled(writer, b"fault ", number_of(fault))?;
    if let Some(i) = index_of(fault) {
        put_labelled(writer, b" ", i as u64)?;
    }
    put(writer, b"\n")
}

// The table of a MAP, and its drawing where one in so many columns is asked for.
pub(crate) fn put_map<W: Sink>(
    alloc: Global,
    map: &WireMap,
    columns: Option<u16>,
    writer: &mut W,
) -> Result<(), RunFault>
    requires { IsWellFormed map.now }
    ensures ok { OnOk result
        (Appends (W.contents writer.old) (W.contents writer.new) (shown_text columns map.now)) }
    ensures err { IfErr result
        (λ e. (e ≡ RunFault.Text TextFault.Memory) ⊎ (e ≡ RunFault.Text TextFault.Output)) }
    ensures failed { TellsFailedWrite result (W.has_failed writer.old) (W.has_failed writer.new) }
    ensures quiet { IfErr result
        (λ e. e ≡ RunFault.Text TextFault.Memory → writer.new ≡ writer.old) }
{
    let Some(columns) = columns else {
        put_table(writer, map)?;
        return Ok(());
    };
    let Ok(drawing) = draw_frame(alloc, map, columns) else {
        return Err(RunFault::Text(TextFault::Memory));
    };
    put_table(writer, map)?;
    put(writer, &drawing)?;
    Ok(())
}

// What is shown of bytes: the MAP that they spell, or the line of their fault and what it means if that is asked for.
fn put_decoded<W: Sink>(
    alloc: Global,
    bytes: &[u8],
    columns: Option<u16>,
    is_explained: bool,
    writer: &mut W,
) -> Result<bool, RunFault>
    ensures exact { IfOk result (λ is_payload. IsTrue is_payload ↔ IsPayload bytes.now) }
    ensures shown { IfOk result (λ is_payload. MatchBool is_payload
        (PutsMap columns bytes.now (W.contents writer.old) (W.contents writer.new))
        (PutsFault is_explained bytes.now (W.contents writer.old) (W.contents writer.new))) }
    ensures err { IfErr result
        (λ e. (e ≡ RunFault.Text TextFault.Memory) ⊎ (e ≡ RunFault.Text TextFault.Output)) }
    ensures failed { TellsFailedWrite result (W.has_failed writer.old) (W.has_failed writer.new) }
    ensures quiet { IfErr result
        (λ e. e ≡ RunFault.Text TextFault.Memory → writer.new ≡ writer.old) }
    ensures payload { IfErr result (λ e. e ≡ RunFault.Text TextFault.Memory → IsPayload bytes.now) }
{
    match decode(alloc, bytes) {
        Ok(map) => {
            put_map(alloc, &map, columns, writer)?;
            Ok(true)
        }
        Err(DecodeFault::Memory) => Err(RunFault::Text(TextFault::Memory)),
        Err(fault) => {
            put_fault_text(writer, fault, is_explained)?;
            Ok(false)
        }
    }
}

// Reads digits as [`decode_text`] does its text.
pub(crate) fn decode_digits<W: Sink>(
    alloc: Global,
    text: &[u8],
    columns: Option<u16>,
    is_explained: bool,
    writer: &mut W,
) -> Result<bool, RunFault>
    ensures exact { IfOk result (λ is_payload. IsTrue is_payload ↔ IsHexOfPayload text.now) }
    ensures shown { IfOk result (λ is_payload. MatchBool is_payload
        (ShowsMap columns text.now (W.contents writer.old) (W.contents writer.new))
        (ShowsFault is_explained text.now (W.contents writer.old) (W.contents writer.new))) }
    ensures err { IfErr result
        (λ e. (e ≡ RunFault.Text TextFault.Memory) ⊎ (e ≡ RunFault.Text TextFault.Output)) }
    ensures failed { TellsFailedWrite result (W.has_failed writer.old) (W.has_failed writer.new) }
    ensures quiet { IfErr result
        (λ e. e ≡ RunFault.Text TextFault.Memory → writer.new ≡ writer.old) }
    ensures odd { length text.now % 2 ≡ 1 → IfErr result (λ e. e ≡ RunFault.Text TextFault.Output) }
{
    match hex::decode(alloc, text) {
        Ok(bytes) => put_decoded(alloc, &bytes, columns, is_explained, writer),
        Err(FromHexError::OutOfMemory) => Err(RunFault::Text(TextFault::Memory)),
        Err(fault) => {
            put_hex_text(writer, fault, is_explained)?;
            Ok(false)
        }
    }
}

/// Reads a text as hexadecimal, digits of both cases, and writes the table of the MAP payload that
/// it is, and behind it the drawing of its frame where one in so many columns is asked for, answering true; or
/// the one line of what is wrong with it, answering false: `fault hex`, or `fault`, the number of the payload's
/// fault, and the element that the fault names where it names one. Where that is asked for, behind it stands a line
/// that says what it means, and where. Its faults are that memory runs out, before anything is written, and a failed
/// write.
pub fn decode_text<W: Sink>(
    alloc: Global,
    text: &str,
    columns: Option<u16>,
    is_explained: bool,
    writer: &mut W,
) -> Result<bool, RunFault>
    // True is answered exactly where the text is hexadecimal of a payload.
    ensures exact { IfOk result (λ is_payload. IsTrue is_payload ↔ IsHexOfPayload text.now) }

    // What was written is the payload's table, with its drawing where that is asked for, or the fault's line, with what
    // it means where that is asked for, and nothing else.
    ensures shown { IfOk result (λ is_payload. MatchBool is_payload
        (ShowsMap columns text.now (W.contents writer.old) (W.contents writer.new))
        (ShowsFault is_explained text.now (W.contents writer.old) (W.contents writer.new))) }

    // No other fault ends it; out of memory only before anything is written, and not where the
    // digits are odd in number.
    ensures err { IfErr result
        (λ e. (e ≡ RunFault.Text TextFault.Memory) ⊎ (e ≡ RunFault.Text TextFault.Output)) }
    ensures failed { TellsFailedWrite result (W.has_failed writer.old) (W.has_failed writer.new) }
    ensures quiet { IfErr result
        (λ e. e ≡ RunFault.Text TextFault.Memory → writer.new ≡ writer.old) }
    ensures odd { length text.now % 2 ≡ 1 → IfErr result (λ e. e ≡ RunFault.Text TextFault.Output) }
{
    decode_digits(alloc, text.as_bytes(), columns, is_explained, writer)
}
