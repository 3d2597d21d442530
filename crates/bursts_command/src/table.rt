//! The bursts of a channel as tables.

ghost use Rattle.std.specs.Prelude.{◌≡◌, ◌+◌, ◌++◌, flat_map, OnOk};
ghost use Rattle.std.specs.List.{range_with_len};
ghost use Rattle.bursts_command.specs.Numbers.{burst_of, request_slots};
ghost use Rattle.bursts_command.specs.Table.{profile_titles, head_text, profile_cells, usage_cell, percent};
ghost use Rattle.bursts_command.specs.Table.{burst_line, request_line, grid_begin, grid_cell, grid_titles};
ghost use Rattle.bursts_command.specs.Table.{grid_text, table_text};

use crate::channel::Channel;
use crate::numbers::{Burst, ByProfile, burst_of, request_slots};
use crate::text::{push_decimal, push_number, push_text};
use minislots::{Bursts, Checked};
use std::alloc::AllocError;

// How many numbers of minislots stand in a line.
const IN_A_LINE: u32 = 10;

// The titles of the columns of profiles.
fn push_profile_titles(words: &mut Vec<u8>, bursts: &Bursts) -> Result<(), AllocError>
    ensures { OnOk result (words.new.items ≡ words.old.items ++ profile_titles bursts.now) }
{
    match bursts {
        Bursts::Uniform { .. } => Ok(()),
        Bursts::Described(_) => push_text(words, b"   short    long  unsolicited"),
    }
}

// The titles of all columns.
#[tactic(auto, unfolding(crate::specs::Table::head_text))]
fn push_head(words: &mut Vec<u8>, bursts: &Bursts) -> Result<(), AllocError>
    ensures { OnOk result (words.new.items ≡ words.old.items ++ head_text bursts.now) }
{
    push_text(words, b"   bytes")?;
    push_profile_titles(words, bursts)?;
    push_text(words, b"  usage  minislots  efficiency\n")
}

// The minislots by each profile.
#[tactic(auto, unfolding(crate::specs::Table::profile_cells))]
fn push_profiles(words: &mut Vec<u8>, by: &Option<ByProfile>) -> Result<(), AllocError>
    ensures { OnOk result (words.new.items ≡ words.old.items ++ profile_cells by.now) }
{
    let Some(by) = by else {
        return Ok(());
    };
    push_number(words, 7, by.short)?;
    push_number(words, 7, by.long)?;
    push_number(words, 12, by.unsolicited)
}

// The usage of a data grant.
fn push_usage(words: &mut Vec<u8>, is_short: bool) -> Result<(), AllocError>
    ensures { OnOk result (words.new.items ≡ words.old.items ++ usage_cell is_short) }
{
    if is_short {
        push_text(words, b"  short")
    } else {
        push_text(words, b"   long")
    }
}

// So many hundredths of a percent.
#[tactic(auto, unfolding(crate::specs::Table::percent))]
fn push_percent(words: &mut Vec<u8>, hundredths: u64) -> Result<(), AllocError>
    ensures { OnOk result (words.new.items ≡ words.old.items ++ percent hundredths) }
{
    let (tens, ones) = (hundredths / 10 % 10, hundredths % 10);
    push_number(words, 7, hundredths / 100)?;
    push_text(words, &[b'.', b'0' + tens as u8, b'0' + ones as u8, b'%'])
}

// The line of bursts of so many bytes.
#[tactic(auto, unfolding(crate::specs::Table::burst_line))]
fn push_burst(words: &mut Vec<u8>, burst: &Burst) -> Result<(), AllocError>
    ensures { OnOk result (words.new.items ≡ words.old.items ++ burst_line burst.now) }
{
    push_number(words, 7, u64::from(burst.bytes))?;
    push_profiles(words, &burst.by_profile)?;
    push_usage(words, burst.is_short)?;
    push_number(words, 10, burst.slots)?;
    push_percent(words, burst.efficiency)?;
    push_text(words, b"\n")
}

// The lines of bursts.
fn push_bursts(words: &mut Vec<u8>, config: &Checked, sizes: &[u32]) -> Result<(), AllocError>
    ensures { OnOk result (words.new.items
        ≡ words.old.items ++ flat_map (λ n. burst_line (burst_of config.now n)) sizes.now) }
{
    for bytes in sizes {
        push_burst(words, &burst_of(config, *bytes))?;
    }
    Ok(())
}

// What requests of 6 and of 7 bytes take, where a profile of theirs is lawful.
#[tactic(auto, unfolding(crate::specs::Table::request_line))]
fn push_request(words: &mut Vec<u8>, channel: &Channel) -> Result<(), AllocError>
    ensures { OnOk result (words.new.items ≡ words.old.items
        ++ request_line (request_slots channel.now 6) (request_slots channel.now 7)) }
{
    let (Some(six), Some(seven)) = (request_slots(channel, 6), request_slots(channel, 7)) else {
        return Ok(());
    };
    push_text(words, b"\nrequest: ")?;
    push_decimal(words, six)?;
    push_text(words, b" minislots for 6 bytes, ")?;
    push_decimal(words, seven)?;
    push_text(words, b" for 7 bytes\n")
}

// Begins a line where ten numbers stand in the one before it.
#[tactic(auto, unfolding(crate::specs::Table::grid_begin))]
fn push_begin(words: &mut Vec<u8>, slots: u32) -> Result<(), AllocError>
    ensures { OnOk result (words.new.items ≡ words.old.items ++ grid_begin slots) }
{
    if slots % IN_A_LINE != 0 {
        return Ok(());
    }
    push_text(words, b"\n")?;
    push_number(words, 8, u64::from(slots))
}

// The most bytes of a grant of so many minislots.
fn push_cell(words: &mut Vec<u8>, config: &Checked, slots: u32) -> Result<(), AllocError>
    ensures { OnOk result (words.new.items ≡ words.old.items ++ grid_cell config.now slots) }
{
    push_begin(words, slots)?;
    push_number(words, 6, config.bytes_in(slots))
}

// The cells of grants of no minislot up to a whole frame.
fn push_cells(words: &mut Vec<u8>, config: &Checked) -> Result<(), AllocError>
    ensures { OnOk result (words.new.items
        ≡ words.old.items ++ flat_map (grid_cell config.now) (range_with_len 0 (config.now.frame + 1))) }
{
    for slots in 0..config.frame() + 1 {
        push_cell(words, config, slots)?;
    }
    Ok(())
}

// Their titles.
#[tactic(auto, unfolding(crate::specs::Table::grid_titles))]
fn push_grid_titles(words: &mut Vec<u8>) -> Result<(), AllocError>
    ensures { OnOk result (words.new.items ≡ words.old.items ++ grid_titles) }
{
    push_text(
        words,
        b"\nminislots     +0     +1     +2     +3     +4     +5     +6     +7     +8     +9",
    )
}

// Those cells under their titles.
#[tactic(auto, unfolding(crate::specs::Table::grid_text))]
fn push_grid(words: &mut Vec<u8>, config: &Checked) -> Result<(), AllocError>
    ensures { OnOk result (words.new.items ≡ words.old.items ++ grid_text config.now) }
{
    push_grid_titles(words)?;
    push_cells(words, config)?;
    push_text(words, b"\n")
}

/// Puts the tables of a channel's bursts of these sizes behind a text.
#[tactic(auto, unfolding(crate::specs::Table::table_text))]
pub(crate) fn push_table(
    words: &mut Vec<u8>,
    channel: &Channel,
    sizes: &[u32],
) -> Result<(), AllocError>
    ensures { OnOk result (words.new.items
        ≡ words.old.items ++ table_text channel.now sizes.now) }
{
    push_head(words, &channel.config.bursts())?;
    push_bursts(words, &channel.config, sizes)?;
    push_request(words, channel)?;
    push_grid(words, &channel.config)
}
