//! What is wrong with a text that is no payload, with what it means where that is asked for.

ghost use Rattle.std.specs.Prelude.{◌≡◌};
ghost use Rattle.text_stream.specs.Writing.{Writes};
ghost use Rattle.decode_command.specs.ExplainedFault.{fault_words, hex_words, digit_of, behind_words, counted};
ghost use Rattle.decode_command.specs.ExplainedFault.{explained_fault, explained_hex, fault_text, hex_text};

use crate::table::{index_of, put_fault, put_labelled};
use hex::FromHexError;
use map_codec::DecodeFault;
use text_stream::{Sink, TextFault, put};

// What a fault of a payload means. Where it names an element, the place of that follows.
pub(crate) fn fault_words(fault: DecodeFault) -> &'static [u8]
    ensures { result.now ≡ fault_words fault }
{
    match fault {
        DecodeFault::Short => b"it is shorter than the 16 bytes before the elements",
        DecodeFault::TooMany => b"it says that it has more than 240 elements",
        DecodeFault::WrongLength =>
            b"its length is not 16 bytes and 4 for each element that it says it has",
        DecodeFault::Expansion(_) => b"IUC 15, an expansion of another code, stands in element",
        DecodeFault::Descending(_) =>
            b"the offset falls below that of the element before in element",
        DecodeFault::NoNull => b"no element has IUC 7, the null that ends the frame",
        DecodeFault::SecondNull(_) =>
            b"a second IUC 7, the null that ends the frame, stands in element",
        DecodeFault::Memory => b"out of memory",
    }
}

// What is wrong with a text that is not hexadecimal. Where it is a character, the place of that follows.
pub(crate) fn hex_words(fault: FromHexError) -> &'static [u8]
    ensures { result.now ≡ hex_words fault }
{
    match fault {
        FromHexError::InvalidHexCharacter { .. } => b"no hexadecimal digit stands at byte",
        FromHexError::OddLength => b"the digits are odd in number, and two make a byte",
        FromHexError::InvalidStringLength => b"the digits are another number",
        FromHexError::OutOfMemory => b"out of memory",
    }
}

// The place of the character that is no digit.
pub(crate) fn digit_of(fault: FromHexError) -> Option<usize>
    ensures { result ≡ digit_of fault }
{
    match fault {
        FromHexError::InvalidHexCharacter { index, .. } => Some(index),
        _ => None,
    }
}

// A place behind words, where there is one.
fn put_place<W: Sink>(writer: &mut W, place: Option<usize>) -> Result<(), TextFault>
    ensures { Writes W.contents W.has_failed writer.old writer.new (behind_words place) result }
{
    match place {
        None => put(writer, b""),
        Some(i) => {
            put_labelled(writer, b" ", i as u64)?;
            put(writer, b", counted from 0")
        }
    }
}

// A line of words, with a place behind them where there is one.
#[tactic(auto, unfolding(crate::specs::ExplainedFault::counted))]
fn put_counted<W: Sink>(writer: &mut W, words: &[u8], place: Option<usize>) -> Result<(), TextFault>
    ensures { Writes W.contents W.has_failed writer.old writer.new
        (counted words.now place) result }
{
    put(writer, words)?;
    put_place(writer, place)?;
    put(writer, b"\n")
}

// The line of a fault, and what it means.
#[tactic(auto, unfolding(crate::specs::ExplainedFault::explained_fault))]
fn put_explained<W: Sink>(writer: &mut W, fault: DecodeFault) -> Result<(), TextFault>
    ensures { Writes W.contents W.has_failed writer.old writer.new (explained_fault fault) result }
{
    put_fault(writer, fault)?;
    put_counted(writer, fault_words(fault), index_of(fault))
}

// The line of a text that is not hexadecimal, and what is wrong with it.
#[tactic(auto, unfolding(crate::specs::ExplainedFault::explained_hex))]
fn put_explained_hex<W: Sink>(writer: &mut W, fault: FromHexError) -> Result<(), TextFault>
    ensures { Writes W.contents W.has_failed writer.old writer.new (explained_hex fault) result }
{
    put(writer, b"fault hex\n")?;
    put_counted(writer, hex_words(fault), digit_of(fault))
}

// The line of a fault, and what it means where that is asked for.
pub(crate) fn put_fault_text<W: Sink>(
    writer: &mut W,
    fault: DecodeFault,
    is_explained: bool,
) -> Result<(), TextFault>
    ensures { Writes W.contents W.has_failed writer.old writer.new
        (fault_text is_explained fault) result }
{
    if is_explained {
        return put_explained(writer, fault);
    }
    put_fault(writer, fault)
}

// The line of a text that is not hexadecimal, and what is wrong with it where that is asked for.
pub(crate) fn put_hex_text<W: Sink>(
    writer: &mut W,
    fault: FromHexError,
    is_explained: bool,
) -> Result<(), TextFault>
    ensures { Writes W.contents W.has_failed writer.old writer.new
        (hex_text is_explained fault) result }
{
    if is_explained {
        return put_explained_hex(writer, fault);
    }
    put(writer, b"fault hex\n")
}
