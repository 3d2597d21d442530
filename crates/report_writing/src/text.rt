//! Numbers in the columns of a table.

ghost use Rattle.std.specs.Prelude.{◌≡◌, ◌≤◌, ◌<◌, ◌+◌, ◌*◌, ◌^◌, ◌++◌, OnOk, decimal, length};
ghost use Rattle.report_writing.specs.Columns.{spaces, left, right, narrower, unit_name, in_unit, unit_for};
ghost use Rattle.report_writing.specs.Columns.{number_column, number_or_none, microseconds, thousandths_text, ms_text};
ghost use Rattle.report_writing.specs.Columns.{ms_column, ms_or_none, in_ten_thousand, hundredths_text, percent_column};
ghost use Rattle.report_writing.specs.Columns.{bits_a_second, fitted, thousandths_end};

use itoa::Buffer;
use std::alloc::AllocError;

// As many spaces as the widest gap has.
const SPACES: [u8; 40] = [b' '; 40];

// What stands in place of a number that there is not.
const NONE: &[u8] = b"-";

// Puts so many spaces behind a text.
#[tactic(auto, unfolding(crate::specs::Columns::spaces))]
pub(crate) fn push_spaces(words: &mut Vec<u8>, count: usize) -> Result<(), AllocError>
    requires { count ≤ 40 }
    ensures { OnOk result (words.new.items ≡ words.old.items ++ spaces count) }
{
    words.extend_from_slice(&SPACES[..count])
}

// Puts a text at the left edge of a column of so many places.
#[tactic(auto, unfolding(crate::specs::Columns::left))]
pub(crate) fn push_left(words: &mut Vec<u8>, text: &[u8], places: usize) -> Result<(), AllocError>
    requires { places ≤ 40 }
    ensures { OnOk result (words.new.items ≡ words.old.items ++ left places text.now) }
{
    words.extend_from_slice(text)?;
    push_spaces(words, places.saturating_sub(text.len()))
}

// Puts a text at the right edge of a column of so many places, behind a space.
#[tactic(auto, unfolding(crate::specs::Columns::right))]
pub(crate) fn push_right(words: &mut Vec<u8>, text: &[u8], places: usize) -> Result<(), AllocError>
    requires { places < 40 }
    ensures { OnOk result (words.new.items ≡ words.old.items ++ right places text.now) }
{
    push_spaces(words, (places + 1).saturating_sub(text.len()))?;
    words.extend_from_slice(text)
}

// Puts a number in decimal behind a text.
pub(crate) fn push_decimal(words: &mut Vec<u8>, number: u64) -> Result<(), AllocError>
    ensures { OnOk result (words.new.items ≡ words.old.items ++ decimal number) }
{
    let mut buffer = Buffer::new();
    words.extend_from_slice(buffer.format(number).as_bytes())
}

// So many places of a column, or one fewer where its table has a column more.
pub(crate) fn narrower(more: bool, places: usize) -> usize
    ensures value { result ≡ narrower more places }
    ensures small { result ≤ places }
{
    if more {
        places.saturating_sub(1)
    } else {
        places
    }
}

// What stands behind a number that is told in so many times a thousand.
#[tactic(auto, unfolding(crate::specs::Columns::unit_name))]
fn unit_name(power: usize) -> &'static [u8]
    ensures name { result.now ≡ unit_name power }
    ensures short { length result.now ≤ 1 }
{
    match power {
        0 => b"",
        1 => b"k",
        2 => b"M",
        3 => b"G",
        4 => b"T",
        5 => b"P",
        6 => b"E",
        7 => b"Z",
        8 => b"Y",
        9 => b"R",
        _ => b"Q",
    }
}

// A thousand to this power.
fn thousand_to(power: usize) -> u128
    requires { power ≤ 10 }
    ensures value { result ≡ 1000 ^ power }
    ensures some { 0 < result }
{
    1000u128.pow(power as u32)
}

// How many characters a number has in this unit.
#[tactic(auto, unfolding(crate::specs::Columns::in_unit))]
fn length_in(number: u128, power: usize) -> usize
    requires { power ≤ 10 }
    ensures { result ≡ length (in_unit number power) }
{
    let mut buffer = Buffer::new();
    buffer.format(number / thousand_to(power)).len() + unit_name(power).len()
}

// The first unit in which a number has room in so many places, or else the last.
fn unit_for(number: u128, places: usize) -> usize
    ensures unit { result ≡ unit_for places number }
    ensures small { result ≤ 10 }
{
    for power in 0..10usize {
        if length_in(number, power) <= places {
            return power;
        }
    }
    10
}

// Puts a text that has two parts at the right edge of a column of so many places, behind a space.
#[tactic(auto, unfolding(crate::specs::Columns::right))]
fn push_both(
    words: &mut Vec<u8>,
    front: &[u8],
    behind: &[u8],
    places: usize,
) -> Result<(), AllocError>
    requires places { places < 40 }
    requires front { length front.now ≤ 40 }
    requires behind { length behind.now ≤ 40 }
    ensures { OnOk result (words.new.items
        ≡ words.old.items ++ right places (front.now ++ behind.now)) }
{
    push_spaces(
        words,
        (places + 1).saturating_sub(front.len() + behind.len()),
    )?;
    words.extend_from_slice(front)?;
    words.extend_from_slice(behind)
}

// Puts a number behind a text, in the first unit in which it has room in so many places.
#[tactic(auto, unfolding(crate::specs::Columns::fitted, crate::specs::Columns::in_unit))]
fn push_fitted(words: &mut Vec<u8>, number: u128, places: usize) -> Result<(), AllocError>
    ensures { OnOk result (words.new.items ≡ words.old.items ++ fitted places number) }
{
    let power = unit_for(number, places);
    let mut buffer = Buffer::new();
    words.extend_from_slice(buffer.format(number / thousand_to(power)).as_bytes())?;
    words.extend_from_slice(unit_name(power))
}

// Puts a number in a column, in the first unit in which it has room.
#[tactic(auto, unfolding(crate::specs::Columns::number_column, crate::specs::Columns::fitted, crate::specs::Columns::in_unit))]
pub(crate) fn push_number(
    words: &mut Vec<u8>,
    number: u128,
    places: usize,
) -> Result<(), AllocError>
    requires { places < 40 }
    ensures { OnOk result (words.new.items ≡ words.old.items ++ number_column places number) }
{
    let power = unit_for(number, places);
    let mut buffer = Buffer::new();
    let digits = buffer.format(number / thousand_to(power)).as_bytes();
    push_both(words, digits, unit_name(power), places)
}

// Puts a number in a column, where there is one.
pub(crate) fn push_number_or(
    words: &mut Vec<u8>,
    number: Option<u128>,
    places: usize,
) -> Result<(), AllocError>
    requires { places < 40 }
    ensures { OnOk result (words.new.items ≡ words.old.items ++ number_or_none places number) }
{
    match number {
        Some(number) => push_number(words, number, places),
        None => push_right(words, NONE, places),
    }
}

// So many minislots of so many ticks of 6.25 microseconds, in microseconds, rounded to the nearest.
pub(crate) fn microseconds(ticks: u32, minislots: u64) -> u128
    ensures { result ≡ microseconds ticks minislots }
{
    (u128::from(minislots) * u128::from(ticks) * 25 + 2) / 4
}

// A digit.
pub(crate) fn digit(number: u128) -> u8
    requires { number ≤ 9 }
    ensures { result ≡ 48 + number }
{
    b'0' + number as u8
}

// The bits a second of so many bytes over so many minislots of so many ticks, where there is time.
pub(crate) fn bits_a_second(bytes: u128, minislots: u64, ticks: u32) -> Option<u128>
    requires { bytes < 2 ^ 90 }
    ensures { result ≡ bits_a_second bytes minislots ticks }
{
    (bytes * 8 * 160_000).checked_div(u128::from(minislots) * u128::from(ticks))
}

// How many in ten thousand of a whole a part of it is, rounded to the nearest.
fn in_ten_thousand(part: u64, whole: u128) -> u128
    requires some { 0 < whole }
    requires small { whole < 2 ^ 100 }
    ensures { result ≡ in_ten_thousand part whole }
{
    (2 * (10_000 * u128::from(part)) + whole) / (2 * whole)
}

// Puts how many in a hundred of a whole a part of it is in a column, where there is a whole.
#[tactic(auto, unfolding(crate::specs::Columns::percent_column, crate::specs::Columns::hundredths_text))]
pub(crate) fn push_percent(
    words: &mut Vec<u8>,
    part: u64,
    whole: u128,
    places: usize,
) -> Result<(), AllocError>
    requires places { places < 40 }
    requires small { whole < 2 ^ 100 }
    ensures { OnOk result (words.new.items ≡ words.old.items ++ percent_column places part whole) }
{
    if whole == 0 {
        return push_right(words, NONE, places);
    }
    let hundredths = in_ten_thousand(part, whole);
    let rest = [b'.', digit(hundredths / 10 % 10), digit(hundredths % 10)];
    let mut buffer = Buffer::new();
    push_both(
        words,
        buffer.format(hundredths / 100).as_bytes(),
        &rest,
        places,
    )
}

// A point and the three digits of so many thousandths.
fn thousandths_of(number: u128) -> [u8; 4]
    ensures { result ≡ thousandths_end number }
{
    [
        b'.',
        digit(number / 100 % 10),
        digit(number / 10 % 10),
        digit(number % 10),
    ]
}

// Puts so many microseconds in milliseconds in a column: whole ones alone where thousandths have no room.
#[tactic(auto, unfolding(crate::specs::Columns::ms_text, crate::specs::Columns::thousandths_text, crate::specs::Columns::number_column))]
fn push_milliseconds(
    words: &mut Vec<u8>,
    microseconds: u128,
    places: usize,
) -> Result<(), AllocError>
    requires { places < 40 }
    ensures { OnOk result (words.new.items
        ≡ words.old.items ++ right places (ms_text places microseconds)) }
{
    let mut buffer = Buffer::new();
    let whole = buffer.format(microseconds / 1000).as_bytes();
    if whole.len() + 4 > places {
        return push_number(words, microseconds / 1000, places);
    }
    push_both(words, whole, &thousandths_of(microseconds), places)
}

// Puts the time of so many minislots in a column, where there are any.
#[tactic(auto, unfolding(crate::specs::Columns::ms_column))]
pub(crate) fn push_ms(
    words: &mut Vec<u8>,
    ticks: u32,
    minislots: Option<u64>,
    places: usize,
) -> Result<(), AllocError>
    requires { places < 40 }
    ensures { OnOk result (words.new.items ≡ words.old.items ++ ms_or_none places ticks minislots) }
{
    match minislots {
        None => push_right(words, NONE, places),
        Some(minislots) => push_milliseconds(words, microseconds(ticks, minislots), places),
    }
}

// Puts a number with all its digits in a column.
pub(crate) fn push_decimal_right(
    words: &mut Vec<u8>,
    number: u64,
    places: usize,
) -> Result<(), AllocError>
    requires { places < 40 }
    ensures { OnOk result (words.new.items ≡ words.old.items ++ right places (decimal number)) }
{
    let mut buffer = Buffer::new();
    push_right(words, buffer.format(number).as_bytes(), places)
}

// Puts so many microseconds in milliseconds behind a text: whole ones alone where they have more than 20 characters.
#[tactic(auto, unfolding(crate::specs::Columns::ms_text, crate::specs::Columns::thousandths_text))]
pub(crate) fn push_time(words: &mut Vec<u8>, microseconds: u128) -> Result<(), AllocError>
    ensures { OnOk result (words.new.items ≡ words.old.items ++ ms_text 20 microseconds) }
{
    let mut buffer = Buffer::new();
    let whole = buffer.format(microseconds / 1000).as_bytes();
    if whole.len() + 4 > 20 {
        return push_fitted(words, microseconds / 1000, 20);
    }
    words.extend_from_slice(whole)?;
    words.extend_from_slice(&thousandths_of(microseconds))
}
