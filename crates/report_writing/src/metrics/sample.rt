//! The lines of the OpenMetrics text format.

ghost use Rattle.std.specs.Prelude.{◌≡◌, ◌≤◌, ◌+◌, ◌++◌, OnOk, codes, decimal};
ghost use Rattle.report_writing.specs.Samples.{hundred_millionths_end, seconds_text, type_line, unit_line, help_line};
ghost use Rattle.report_writing.specs.Samples.{heading, label, rank_value, labels_of, sample_front, count_sample};
ghost use Rattle.report_writing.specs.Samples.{time_sample, count_line, count_line_or_none, time_line_or_none};

use crate::text::{digit, push_decimal};
use itoa::Buffer;
use sched_report::POLLED;
use std::alloc::AllocError;

// What the numbers of a family are counted in.
#[derive(Clone, Copy)]
pub(crate) enum Measure {
    Bytes,
    Seconds,
    // Whatever the name of the family says.
    Pieces,
}

// Whose number a sample has.
#[derive(Clone, Copy)]
pub(crate) enum Whose {
    // Calls of this name.
    Call(&'static [u8]),
    // Minislots of this use.
    Use(&'static [u8]),
    // Refusals with this number.
    Refusal(u64),
    // Refused calls that name this SID.
    Sid(u64),
    // The flows of this rank.
    Rank(u8),
    // The life at this place in the order of the admissions, counted from 0, under this SID.
    Life(u64, u16),
    // The receiver with this number.
    Receiver(u64),
}

// A point and the eight digits behind it of so many hundred millionths.
fn hundred_millionths_of(number: u128) -> [u8; 9]
    ensures { result ≡ hundred_millionths_end number }
{
    [
        b'.',
        digit(number / 10_000_000 % 10),
        digit(number / 1_000_000 % 10),
        digit(number / 100_000 % 10),
        digit(number / 10_000 % 10),
        digit(number / 1000 % 10),
        digit(number / 100 % 10),
        digit(number / 10 % 10),
        digit(number % 10),
    ]
}

// The time of so many minislots of so many ticks in seconds.
#[tactic(auto, unfolding(crate::specs::Samples::hundred_millionths_text))]
pub(crate) fn push_seconds(
    words: &mut Vec<u8>,
    ticks: u32,
    minislots: u64,
) -> Result<(), AllocError>
    ensures { OnOk result (words.new.items ≡ words.old.items ++ seconds_text ticks minislots) }
{
    let number = u128::from(minislots) * u128::from(ticks) * 625;
    let mut buffer = Buffer::new();
    words.extend_from_slice(buffer.format(number / 100_000_000).as_bytes())?;
    words.extend_from_slice(&hundred_millionths_of(number))
}

// A number of any size.
fn push_count(words: &mut Vec<u8>, number: u128) -> Result<(), AllocError>
    ensures { OnOk result (words.new.items ≡ words.old.items ++ decimal number) }
{
    let mut buffer = Buffer::new();
    words.extend_from_slice(buffer.format(number).as_bytes())
}

// The type of a family.
#[tactic(auto, unfolding(crate::specs::Samples::type_line))]
fn push_type(words: &mut Vec<u8>, name: &[u8], kind: &[u8]) -> Result<(), AllocError>
    ensures { OnOk result (words.new.items ≡ words.old.items ++ type_line name.now kind.now) }
{
    words.extend_from_slice(b"# TYPE ")?;
    words.extend_from_slice(name)?;
    words.extend_from_slice(b" ")?;
    words.extend_from_slice(kind)?;
    words.extend_from_slice(b"\n")
}

// What its numbers are counted in.
#[tactic(auto, unfolding(crate::specs::Samples::unit_line))]
fn push_unit(words: &mut Vec<u8>, name: &[u8], measure: Measure) -> Result<(), AllocError>
    ensures { OnOk result (words.new.items ≡ words.old.items ++ unit_line name.now measure) }
{
    let unit: &[u8] = match measure {
        Measure::Pieces => return Ok(()),
        Measure::Bytes => b" bytes\n",
        Measure::Seconds => b" seconds\n",
    };
    words.extend_from_slice(b"# UNIT ")?;
    words.extend_from_slice(name)?;
    words.extend_from_slice(unit)
}

// What they are.
#[tactic(auto, unfolding(crate::specs::Samples::help_line))]
fn push_help(words: &mut Vec<u8>, name: &[u8], help: &[u8]) -> Result<(), AllocError>
    ensures { OnOk result (words.new.items ≡ words.old.items ++ help_line name.now help.now) }
{
    words.extend_from_slice(b"# HELP ")?;
    words.extend_from_slice(name)?;
    words.extend_from_slice(b" ")?;
    words.extend_from_slice(help)?;
    words.extend_from_slice(b"\n")
}

// All that is told of a family before its samples.
#[tactic(auto, unfolding(crate::specs::Samples::heading))]
pub(crate) fn push_heading(
    words: &mut Vec<u8>,
    name: &[u8],
    kind: &[u8],
    measure: Measure,
    help: &[u8],
) -> Result<(), AllocError>
    ensures { OnOk result (words.new.items
        ≡ words.old.items ++ heading name.now kind.now measure help.now) }
{
    push_type(words, name, kind)?;
    push_unit(words, name, measure)?;
    push_help(words, name, help)
}

// A label with its value, in which nothing has to be escaped.
#[tactic(auto, unfolding(crate::specs::Samples::label))]
pub(crate) fn push_label(words: &mut Vec<u8>, name: &[u8], value: &[u8]) -> Result<(), AllocError>
    ensures { OnOk result (words.new.items ≡ words.old.items ++ label name.now value.now) }
{
    words.extend_from_slice(name)?;
    words.extend_from_slice(b"=\"")?;
    words.extend_from_slice(value)?;
    words.extend_from_slice(b"\"")
}

// A label with a number.
fn push_number_label(words: &mut Vec<u8>, name: &[u8], number: u64) -> Result<(), AllocError>
    ensures { OnOk result (words.new.items ≡ words.old.items ++ label name.now (decimal number)) }
{
    let mut buffer = Buffer::new();
    push_label(words, name, buffer.format(number).as_bytes())
}

// The label of a rank.
fn push_rank_label(words: &mut Vec<u8>, rank: u8) -> Result<(), AllocError>
    ensures { OnOk result (words.new.items
        ≡ words.old.items ++ label (codes "rank") (rank_value rank)) }
{
    if rank == POLLED {
        return push_label(words, b"rank", b"polled");
    }
    push_number_label(words, b"rank", u64::from(rank))
}

// The labels of a life.
fn push_life_labels(words: &mut Vec<u8>, place: u64, sid: u16) -> Result<(), AllocError>
    ensures { OnOk result (words.new.items ≡ words.old.items
        ++ (label (codes "life") (decimal place) ++ (codes "," ++ label (codes "sid") (decimal sid)))) }
{
    push_number_label(words, b"life", place)?;
    words.extend_from_slice(b",")?;
    push_number_label(words, b"sid", u64::from(sid))
}

// Whose number a sample has.
#[tactic(auto, unfolding(crate::specs::Samples::labels_of))]
pub(crate) fn push_labels(words: &mut Vec<u8>, whose: Whose) -> Result<(), AllocError>
    ensures { OnOk result (words.new.items ≡ words.old.items ++ labels_of whose) }
{
    match whose {
        Whose::Call(name) => push_label(words, b"call", name),
        Whose::Use(name) => push_label(words, b"use", name),
        Whose::Refusal(number) => push_number_label(words, b"number", number),
        Whose::Sid(sid) => push_number_label(words, b"sid", sid),
        Whose::Rank(rank) => push_rank_label(words, rank),
        Whose::Life(place, sid) => push_life_labels(words, place, sid),
        Whose::Receiver(number) => push_number_label(words, b"receiver", number),
    }
}

// What stands before a number that has labels.
#[tactic(auto, unfolding(crate::specs::Samples::sample_front))]
fn push_front(words: &mut Vec<u8>, name: &[u8], whose: Whose) -> Result<(), AllocError>
    ensures { OnOk result (words.new.items
        ≡ words.old.items ++ sample_front name.now (labels_of whose)) }
{
    words.extend_from_slice(name)?;
    words.extend_from_slice(b"{")?;
    push_labels(words, whose)?;
    words.extend_from_slice(b"} ")
}

// A number of pieces or bytes with labels.
#[tactic(auto, unfolding(crate::specs::Samples::count_sample))]
pub(crate) fn push_count_sample(
    words: &mut Vec<u8>,
    name: &[u8],
    whose: Whose,
    number: u128,
) -> Result<(), AllocError>
    ensures { OnOk result (words.new.items
        ≡ words.old.items ++ count_sample name.now (labels_of whose) number) }
{
    push_front(words, name, whose)?;
    push_count(words, number)?;
    words.extend_from_slice(b"\n")
}

// The time of so many minislots with labels.
#[tactic(auto, unfolding(crate::specs::Samples::time_sample))]
pub(crate) fn push_time_sample(
    words: &mut Vec<u8>,
    ticks: u32,
    name: &[u8],
    whose: Whose,
    minislots: u64,
) -> Result<(), AllocError>
    ensures { OnOk result (words.new.items
        ≡ words.old.items ++ time_sample ticks name.now (labels_of whose) minislots) }
{
    push_front(words, name, whose)?;
    push_seconds(words, ticks, minislots)?;
    words.extend_from_slice(b"\n")
}

// A number without labels.
#[tactic(auto, unfolding(crate::specs::Samples::count_line))]
pub(crate) fn push_count_line(
    words: &mut Vec<u8>,
    name: &[u8],
    number: u64,
) -> Result<(), AllocError>
    ensures { OnOk result (words.new.items ≡ words.old.items ++ count_line name.now number) }
{
    words.extend_from_slice(name)?;
    words.extend_from_slice(b" ")?;
    push_decimal(words, number)?;
    words.extend_from_slice(b"\n")
}

// It, where there is one.
pub(crate) fn push_count_line_or_none(
    words: &mut Vec<u8>,
    name: &[u8],
    number: Option<u64>,
) -> Result<(), AllocError>
    ensures { OnOk result (words.new.items
        ≡ words.old.items ++ count_line_or_none name.now number) }
{
    match number {
        Some(number) => push_count_line(words, name, number),
        None => Ok(()),
    }
}

// A time without labels, where there is one.
#[tactic(auto, unfolding(crate::specs::Samples::time_line))]
pub(crate) fn push_time_line(
    words: &mut Vec<u8>,
    ticks: u32,
    name: &[u8],
    minislots: Option<u64>,
) -> Result<(), AllocError>
    ensures { OnOk result (words.new.items
        ≡ words.old.items ++ time_line_or_none ticks name.now minislots) }
{
    let Some(minislots) = minislots else {
        return Ok(());
    };
    words.extend_from_slice(name)?;
    words.extend_from_slice(b" ")?;
    push_seconds(words, ticks, minislots)?;
    words.extend_from_slice(b"\n")
}
