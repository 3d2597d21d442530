//! The answer to a line that asks for the numbers of a conversation.

ghost use Rattle.std.specs.Prelude.{◌≡◌, ◌++◌, decimal, flat_map, OnOk};
ghost use Rattle.live_command.specs.Stats.{next_text, number_or_null, member_text, refused_text, counts_text};
ghost use Rattle.live_command.specs.Stats.{extremes_text, numbers_text, named_text, both_text, stats_line};
ghost use Rattle.live_command.specs.Stats.{backlog_text, standing_text};

use crate::numbers::Numbers;
use crate::standing::Standing;
use itoa::Buffer;
use std::alloc::AllocError;

// A number in decimal.
fn put_decimal(text: &mut Vec<u8>, number: u64) -> Result<(), AllocError>
    ensures { OnOk result (text.new.items ≡ text.old.items ++ decimal number) }
{
    let mut digits = Buffer::new();
    text.extend_from_slice(digits.format(number).as_bytes())
}

// A name, and a number behind it.
fn put_member(text: &mut Vec<u8>, name: &[u8], number: u64) -> Result<(), AllocError>
    ensures { OnOk result (text.new.items ≡ text.old.items ++ member_text name.now number) }
{
    text.extend_from_slice(name)?;
    put_decimal(text, number)
}

// Numbers, each behind a comma.
fn put_each(text: &mut Vec<u8>, numbers: &[u64]) -> Result<(), AllocError>
    ensures { OnOk result (text.new.items ≡ text.old.items ++ flat_map next_text numbers.now) }
{
    for number in numbers {
        put_member(text, b",", *number)?;
    }
    Ok(())
}

// A number, where there is one.
fn put_or_null(text: &mut Vec<u8>, number: Option<u64>) -> Result<(), AllocError>
    ensures { OnOk result (text.new.items ≡ text.old.items ++ number_or_null number) }
{
    match number {
        Some(number) => put_decimal(text, number),
        None => text.extend_from_slice(b"null"),
    }
}

// The refusals by their numbers.
#[tactic(auto, unfolding(crate::specs::Stats::refused_text))]
fn put_refused(text: &mut Vec<u8>, counts: &[u64]) -> Result<(), AllocError>
    ensures { OnOk result (text.new.items ≡ text.old.items ++ refused_text counts.now) }
{
    text.extend_from_slice(b",\"refused\":[0")?;
    put_each(text, counts)?;
    text.extend_from_slice(b"]")?;
    Ok(())
}

// How many there are of a kind.
#[tactic(auto, unfolding(crate::specs::Stats::counts_text))]
fn put_counts(text: &mut Vec<u8>, numbers: &Numbers) -> Result<(), AllocError>
    ensures { OnOk result (text.new.items ≡ text.old.items ++ counts_text numbers.now) }
{
    put_member(text, b"{\"entries\":", numbers.entries)?;
    put_member(text, b",\"maps\":", numbers.maps)?;
    put_refused(text, &numbers.refused)
}

// What is least or greatest.
#[tactic(auto, unfolding(crate::specs::Stats::extremes_text))]
fn put_extremes(text: &mut Vec<u8>, numbers: &Numbers) -> Result<(), AllocError>
    ensures { OnOk result (text.new.items ≡ text.old.items ++ extremes_text numbers.now) }
{
    put_member(text, b",\"most_elements\":", numbers.elements)?;
    text.extend_from_slice(b",\"least_margin\":")?;
    put_or_null(text, numbers.margin)?;
    put_member(text, b",\"most_ack_behind\":", numbers.behind)?;
    text.extend_from_slice(b"}")
}

// The numbers as an object.
#[tactic(auto, unfolding(crate::specs::Stats::numbers_text))]
fn put_numbers(text: &mut Vec<u8>, numbers: &Numbers) -> Result<(), AllocError>
    ensures { OnOk result (text.new.items ≡ text.old.items ++ numbers_text numbers.now) }
{
    put_counts(text, numbers)?;
    put_extremes(text, numbers)
}

// A name, and numbers behind it.
#[tactic(auto, unfolding(crate::specs::Stats::named_text))]
fn put_named(text: &mut Vec<u8>, name: &[u8], numbers: &Numbers) -> Result<(), AllocError>
    ensures { OnOk result (text.new.items ≡ text.old.items ++ named_text name.now numbers.now) }
{
    text.extend_from_slice(name)?;
    put_numbers(text, numbers)
}

// The numbers since the start, and since they were told last.
#[tactic(auto, unfolding(crate::specs::Stats::both_text))]
fn put_both(text: &mut Vec<u8>, total: &Numbers, since: &Numbers) -> Result<(), AllocError>
    ensures { OnOk result (text.new.items ≡ text.old.items ++ both_text total.now since.now) }
{
    put_named(text, b"{\"since_start\":", total)?;
    put_named(text, b",\"since_stats\":", since)
}

// A name, and a number of 128 bits behind it.
fn put_wide(text: &mut Vec<u8>, name: &[u8], number: u128) -> Result<(), AllocError>
    ensures { OnOk result (text.new.items ≡ text.old.items ++ member_text name.now number) }
{
    let mut digits = Buffer::new();
    text.extend_from_slice(name)?;
    text.extend_from_slice(digits.format(number).as_bytes())
}

// What waits for data grants.
#[tactic(auto, unfolding(crate::specs::Stats::backlog_text))]
fn put_backlog(text: &mut Vec<u8>, now: &Standing) -> Result<(), AllocError>
    ensures { OnOk result (text.new.items ≡ text.old.items ++ backlog_text now.now) }
{
    put_member(text, b",\"waiting_flows\":", now.backlog.flows)?;
    put_wide(text, b",\"waiting_bytes\":", now.backlog.bytes)
}

// How the conversation stands.
#[tactic(auto, unfolding(crate::specs::Stats::standing_text))]
fn put_standing(text: &mut Vec<u8>, now: &Standing) -> Result<(), AllocError>
    ensures { OnOk result (text.new.items ≡ text.old.items ++ standing_text now.now) }
{
    put_backlog(text, now)?;
    put_member(text, b",\"lapsed_reserves\":", now.lapsed)?;
    put_member(text, b",\"journal_bytes\":", now.journal_bytes)
}

/// The line of the numbers since the start, and since they were told last, and of how the conversation stands.
#[tactic(auto, unfolding(crate::specs::Stats::stats_line))]
pub(crate) fn put_stats(
    text: &mut Vec<u8>,
    total: &Numbers,
    since: &Numbers,
    now: &Standing,
) -> Result<(), AllocError>
    ensures { OnOk result (text.new.items ≡ text.old.items ++ stats_line total.now since.now now.now) }
{
    put_both(text, total, since)?;
    put_standing(text, now)?;
    text.extend_from_slice(b"}\n")?;
    Ok(())
}
