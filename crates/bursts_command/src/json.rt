//! The bursts of a channel as JSON.

ghost use Rattle.std.specs.Prelude.{◌≡◌, ◌<◌, ◌+◌, ◌++◌, flat_map, length, OnOk};
ghost use Rattle.std.specs.List.{range_with_len};
ghost use Rattle.bursts_command.specs.Numbers.{burst_of, request_slots};
ghost use Rattle.bursts_command.specs.Json.{comma_before, labelled, profiles_member, usage_member, burst_object};
ghost use Rattle.bursts_command.specs.Json.{burst_item, bursts_member, capacity_item, capacity_member, request_of_both};
ghost use Rattle.bursts_command.specs.Json.{request_member, json_text};

use crate::channel::Channel;
use crate::numbers::{Burst, ByProfile, burst_of, request_slots};
use crate::text::{push_decimal, push_text};
use minislots::Checked;
use std::alloc::AllocError;

// A comma before each item but the first.
fn push_comma(words: &mut Vec<u8>, index: usize) -> Result<(), AllocError>
    ensures { OnOk result (words.new.items ≡ words.old.items ++ comma_before index) }
{
    if index == 0 {
        return Ok(());
    }
    push_text(words, b",")
}

// A number behind its key.
#[tactic(auto, unfolding(crate::specs::Json::labelled))]
fn push_labelled(words: &mut Vec<u8>, key: &[u8], number: u64) -> Result<(), AllocError>
    ensures { OnOk result (words.new.items ≡ words.old.items ++ labelled key.now number) }
{
    push_text(words, key)?;
    push_decimal(words, number)
}

// The member of the minislots by each profile.
#[tactic(auto, unfolding(crate::specs::Json::profiles_member))]
fn push_profiles(words: &mut Vec<u8>, by: &Option<ByProfile>) -> Result<(), AllocError>
    ensures { OnOk result (words.new.items ≡ words.old.items ++ profiles_member by.now) }
{
    let Some(by) = by else {
        return Ok(());
    };
    push_labelled(words, b",\"profiles\":{\"long\":", by.long)?;
    push_labelled(words, b",\"short\":", by.short)?;
    push_labelled(words, b",\"unsolicited\":", by.unsolicited)?;
    push_text(words, b"}")
}

// The member of the usage of a data grant, and the brace behind it.
fn push_usage(words: &mut Vec<u8>, is_short: bool) -> Result<(), AllocError>
    ensures { OnOk result (words.new.items ≡ words.old.items ++ usage_member is_short) }
{
    if is_short {
        push_text(words, b",\"usage\":\"short\"}")
    } else {
        push_text(words, b",\"usage\":\"long\"}")
    }
}

// Bursts of one size.
#[tactic(auto, unfolding(crate::specs::Json::burst_object))]
fn push_burst(words: &mut Vec<u8>, burst: &Burst) -> Result<(), AllocError>
    ensures { OnOk result (words.new.items ≡ words.old.items ++ burst_object burst.now) }
{
    push_labelled(words, b"{\"bytes\":", u64::from(burst.bytes))?;
    push_labelled(words, b",\"efficiency\":", burst.efficiency)?;
    push_labelled(words, b",\"minislots\":", burst.slots)?;
    push_profiles(words, &burst.by_profile)?;
    push_usage(words, burst.is_short)
}

// The burst at a place in a list of sizes, behind a comma.
fn push_item(
    words: &mut Vec<u8>,
    config: &Checked,
    sizes: &[u32],
    index: usize,
) -> Result<(), AllocError>
    requires { index < length sizes.now }
    ensures { OnOk result (words.new.items
        ≡ words.old.items ++ burst_item config.now sizes.now index) }
{
    push_comma(words, index)?;
    push_burst(words, &burst_of(config, sizes[index]))
}

// Bursts of these sizes, with commas between them.
fn push_items(words: &mut Vec<u8>, config: &Checked, sizes: &[u32]) -> Result<(), AllocError>
    ensures { OnOk result (words.new.items ≡ words.old.items
        ++ flat_map (burst_item config.now sizes.now) (range_with_len 0 (length sizes.now))) }
{
    for index in 0..sizes.len() {
        push_item(words, config, sizes, index)?;
    }
    Ok(())
}

// The member of the bursts of these sizes.
#[tactic(auto, unfolding(crate::specs::Json::bursts_member))]
fn push_bursts(words: &mut Vec<u8>, config: &Checked, sizes: &[u32]) -> Result<(), AllocError>
    ensures { OnOk result (words.new.items
        ≡ words.old.items ++ bursts_member config.now sizes.now) }
{
    push_text(words, b"\"bursts\":[")?;
    push_items(words, config, sizes)?;
    push_text(words, b"]")
}

// The most bytes of a grant of so many minislots, behind a comma.
fn push_capacity_item(words: &mut Vec<u8>, config: &Checked, slots: u32) -> Result<(), AllocError>
    ensures { OnOk result (words.new.items ≡ words.old.items ++ capacity_item config.now slots) }
{
    push_comma(words, slots as usize)?;
    push_decimal(words, config.bytes_in(slots))
}

// The most bytes of grants of no minislot up to a whole frame, with commas between them.
fn push_capacity_items(words: &mut Vec<u8>, config: &Checked) -> Result<(), AllocError>
    ensures { OnOk result (words.new.items ≡ words.old.items
        ++ flat_map (capacity_item config.now) (range_with_len 0 (config.now.frame + 1))) }
{
    for slots in 0..config.frame() + 1 {
        push_capacity_item(words, config, slots)?;
    }
    Ok(())
}

// The member of those.
#[tactic(auto, unfolding(crate::specs::Json::capacity_member))]
fn push_capacity(words: &mut Vec<u8>, config: &Checked) -> Result<(), AllocError>
    ensures { OnOk result (words.new.items ≡ words.old.items ++ capacity_member config.now) }
{
    push_text(words, b",\"capacity\":[")?;
    push_capacity_items(words, config)?;
    push_text(words, b"]")
}

// The member of what requests of 6 and of 7 bytes take.
#[tactic(auto, unfolding(crate::specs::Json::request_of_both))]
fn push_both(words: &mut Vec<u8>, six: u64, seven: u64) -> Result<(), AllocError>
    ensures { OnOk result (words.new.items ≡ words.old.items ++ request_of_both six seven) }
{
    push_labelled(words, b",\"request\":{\"6\":", six)?;
    push_labelled(words, b",\"7\":", seven)?;
    push_text(words, b"}")
}

// It, where a profile of theirs is lawful.
fn push_request(words: &mut Vec<u8>, channel: &Channel) -> Result<(), AllocError>
    ensures { OnOk result (words.new.items ≡ words.old.items
        ++ request_member (request_slots channel.now 6) (request_slots channel.now 7)) }
{
    match (request_slots(channel, 6), request_slots(channel, 7)) {
        (Some(six), Some(seven)) => push_both(words, six, seven),
        _ => Ok(()),
    }
}

/// Puts the JSON of a channel's bursts of these sizes behind a text.
#[tactic(auto, unfolding(crate::specs::Json::json_text))]
pub(crate) fn push_json(
    words: &mut Vec<u8>,
    channel: &Channel,
    sizes: &[u32],
) -> Result<(), AllocError>
    ensures { OnOk result (words.new.items ≡ words.old.items ++ json_text channel.now sizes.now) }
{
    push_text(words, b"{")?;
    push_bursts(words, &channel.config, sizes)?;
    push_capacity(words, &channel.config)?;
    push_request(words, channel)?;
    push_text(words, b"}\n")
}
