//! What the exports say in words: the version, what a status says, and what a refusal means.

ghost use Rattle.std.specs.Prelude.{◌≡◌, IfOk, map, option_map};
ghost use Rattle.std.specs.List.{slice_get};
ghost use Rattle.sched_lines.specs.Meaning.{meaning_of};
ghost use Rattle.mapsched_c.specs.Text.{GivesText};
ghost use Rattle.mapsched_c.specs.Words.{text_behind, fault_text, status_words, version, GivesWords};
ghost use Rattle.mapsched_c.specs.Words.{refusal_told, GivesMeaning};

use crate::status;
use crate::texts::put_text;
use history_reading::refusal_with;
use sched_calls::Refusal;
use sched_lines::put_meaning;
use std::alloc::Global;
use text_stream::TextFault;

// The version, which the file VERSION at the top has too.
const VERSION: &[u8] = b"0.2.0";

// What the statuses up to the first group say, by their numbers from 0.
static STATUSES: [&[u8]; 22] = [
    b"ok",
    b"no scheduler",
    b"a scheduler already",
    b"no such call",
    b"history full",
    b"out of memory",
    b"no such entry",
    b"no room",
    b"illegal",
    b"text too long",
    b"not json",
    b"no history",
    b"no ticket",
    b"not served",
    b"has a ticket",
    b"no seat",
    b"workers left",
    b"seats",
    b"not kept",
    b"no turn",
    b"keeps all",
    b"no such number",
];

// The fields of a configuration that can be wrong, by their numbers from 1.
static FIELDS: [&[u8]; 25] = [
    b"ticks",
    b"bytes_per_slot",
    b"overhead",
    b"frame",
    b"cycle",
    b"req_slots",
    b"poll_slots",
    b"lead",
    b"short_max",
    b"quantum",
    b"grant_cap",
    b"receivers",
    b"calls",
    b"start",
    b"ranging_start",
    b"ranging_end",
    b"data_start",
    b"data_end",
    b"phy",
    b"bursts",
    b"flows",
    b"pending",
    b"periodic",
    b"open_idle",
    b"settle",
];

// What the faults of a payload say, by their numbers from 1.
static PAYLOAD_FAULTS: [&[u8]; 7] = [
    b"too short",
    b"too many elements",
    b"wrong length",
    b"an expansion",
    b"a descent",
    b"no null",
    b"a second null",
];

// Those of numbers that are no MAP.
static MAP_FAULTS: [&[u8]; 5] = [
    b"too many elements",
    b"out of range",
    b"a descent",
    b"no null",
    b"a second null",
];

// Those of bytes that are no request frame.
static REQUEST_FAULTS: [&[u8]; 4] = [b"length", b"kind", b"sid", b"hcs"];

// The text at this place of a list, from 0.
fn text_at(texts: &[&'static [u8]], place: u32) -> Option<&'static [u8]>
    ensures { option_map (λ text. text.now) result
        ≡ slice_get (map (λ text. text.now) texts.now) place }
{
    if place as usize >= texts.len() {
        return None;
    }
    Some(texts[place as usize])
}

// The text of a fault whose number, from 1, is added to that of its group.
fn text_behind(group: u32, texts: &[&'static [u8]], number: u32) -> Option<&'static [u8]>
    ensures { option_map (λ text. text.now) result
        ≡ text_behind group (map (λ text. text.now) texts.now) number }
{
    if number <= group {
        return None;
    }
    text_at(texts, number - group - 1)
}

// The text of a fault, whose group is added to its number.
#[tactic(auto, unfolding(crate::specs::Words::fault_text))]
fn fault_text(number: u32) -> Option<&'static [u8]>
    ensures { option_map (λ text. text.now) result ≡ fault_text number }
{
    if number < status::BAD_PAYLOAD {
        text_behind(status::BAD_CONFIG, &FIELDS, number)
    } else if number < status::BAD_MAP {
        text_behind(status::BAD_PAYLOAD, &PAYLOAD_FAULTS, number)
    } else if number < status::BAD_REQUEST {
        text_behind(status::BAD_MAP, &MAP_FAULTS, number)
    } else {
        text_behind(status::BAD_REQUEST, &REQUEST_FAULTS, number)
    }
}

// What a status says.
#[tactic(auto, unfolding(crate::specs::Words::status_words))]
fn status_words(number: u32) -> Option<&'static [u8]>
    ensures { option_map (λ text. text.now) result ≡ status_words number }
{
    if number < status::BAD_CONFIG {
        text_at(&STATUSES, number)
    } else {
        fault_text(number)
    }
}

/// Writes the version, as 0.2.0, at the front of the room, and tells its length. Where there is no room for it, tells
/// its length alone.
#[unsafe(no_mangle)]
pub extern "C" fn mapsched_version(room: &mut [u8], length: &mut usize) -> u32
    ensures { GivesText version result room.old room.new length.new }
{
    put_text(VERSION, room, length)
}

/// Writes what a status says, in English, at the front of the room, and tells its length. Where there is no room for
/// it, tells its length alone; where no status has this number, tells nothing.
#[unsafe(no_mangle)]
pub extern "C" fn mapsched_status_words(number: u32, room: &mut [u8], length: &mut usize) -> u32
    ensures { GivesWords (status_words number) result room.old room.new length.old length.new }
{
    match status_words(number) {
        Some(words) => put_text(words, room, length),
        None => status::NO_WORDS,
    }
}

// The refusal of this number: one without a value, or the one with this.
fn refusal_told(number: u32, value: u64) -> Option<Refusal>
    ensures { result ≡ refusal_told number value }
{
    match refusal_with(u64::from(number), None) {
        Some(refusal) => Some(refusal),
        None => refusal_with(u64::from(number), Some(value)),
    }
}

// What a refusal means.
fn meaning(alloc: Global, refusal: Refusal) -> Result<Vec<u8>, TextFault>
    ensures { IfOk result (λ words. words.items ≡ meaning_of refusal) }
{
    let mut words = Vec::new(alloc);
    put_meaning(&mut words, refusal)?;
    Ok(words)
}

/// Writes what the refusal of this number means, in English, at the front of the room, and tells its length. The value
/// is that of its reply, which counts only where the refusal has one. Where there is no room for it, tells its length
/// alone; where there is no such refusal, tells nothing.
#[unsafe(no_mangle)]
pub extern "C" fn mapsched_refusal_words(
    alloc: Global,
    number: u32,
    value: u64,
    room: &mut [u8],
    length: &mut usize,
) -> u32
    ensures { GivesMeaning (refusal_told number value) result
        room.old room.new length.old length.new }
{
    let Some(refusal) = refusal_told(number, value) else {
        return status::NO_WORDS;
    };
    match meaning(alloc, refusal) {
        Ok(words) => put_text(&words, room, length),
        Err(_) => status::OUT_OF_MEMORY,
    }
}
