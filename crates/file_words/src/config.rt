//! What is wrong with a field of a configuration, and the values that it may have.

use super::sort::REQUEST;
use json_fields::config_in;
use json_fields::forms::{BURSTS, CONFIGS, Form, Holds, PROFILES};
use minislots::{Bursts, Config, ConfigFault, FieldRule};
use serde_json::Value;
use std::alloc::AllocError;
use std::fmt::Write;
use text_stream::field_number;

/// The most bytes of a codeword.
const CODEWORD: u64 = 255;

// The key of a field: the members of the form go by the numbers of the fields.
fn key_of(field: ConfigFault) -> &'static str {
    let index = usize::from(field_number(field)).saturating_sub(1);
    match CONFIGS[0].1.get(index) {
        Some(member) => member.0,
        None => "",
    }
}

// Why the request region is no longer: what has to fit behind it.
fn rule_of_requests(bursts: &Bursts) -> &'static str {
    match bursts {
        Bursts::Uniform { .. } => {
            ", so that the overhead and a minislot of data fit behind it in the frame"
        }
        Bursts::Described(_) => ", so that a long burst of one byte fits behind it in the frame",
    }
}

// What else a field must be, or why its range is this where another field decides it.
fn rule_of(config: &Config, field: ConfigFault) -> &'static str {
    match (field.rule(), field) {
        (FieldRule::PowerOfTwo, _) => ", a power of two",
        (FieldRule::WholeFrames, _) => ", a multiple of the frame",
        (_, ConfigFault::ReqSlots) => rule_of_requests(&config.bursts),
        (_, ConfigFault::PollSlots) => ", what the request region leaves of the frame",
        (_, ConfigFault::Lead) => ", so that it and two frames are at most 4096 minislots",
        (_, ConfigFault::ShortMax) => ", at most the frame",
        (_, ConfigFault::Quantum) => ", so that its burst fits behind the request region",
        (_, ConfigFault::GrantCap) => ", at least the quantum",
        _ => "",
    }
}

// The whole number under a key.
fn number(object: &Value, key: &str) -> u64 {
    object.get(key).and_then(Value::as_u64).unwrap_or(0)
}

// A number in burst descriptors: its key, what it is, the least and the greatest that it may be, and why it is no more.
type Wrong = (&'static str, u64, u64, u64, &'static str);

// The first number in an object of this form that is not lawful.
fn wrong_in(object: &Value, form: &Form) -> Option<Wrong> {
    for member in form.1 {
        let (key, Holds::Lawful(_, low, high), _) = *member else {
            continue;
        };
        let left = CODEWORD.saturating_sub(number(object, "parity").saturating_mul(2));
        let (most, rule) = if key == "information" && left < high {
            (left, ", so that it and twice the parity are at most 255")
        } else {
            (high, "")
        };
        let found = number(object, key);
        if found < low || found > most {
            return Some((key, found, low, most, rule));
        }
    }
    None
}

// The first number in burst descriptors that is not lawful, and behind a comma the key of the descriptor that it is in.
fn wrong_burst(bursts: &Value) -> Option<(&'static str, &'static str, Wrong)> {
    if let Some(wrong) = wrong_in(bursts, &BURSTS[0]) {
        return Some(("", "", wrong));
    }
    for member in BURSTS[0].1 {
        let (key, Holds::Object(_), _) = *member else {
            continue;
        };
        let profile = bursts.get(key);
        if let Some(wrong) = profile.and_then(|profile| wrong_in(profile, &PROFILES[0])) {
            return Some((", ", key, wrong));
        }
    }
    None
}

// That a number in burst descriptors is not lawful, with those that it may be.
fn tell_wrong(
    words: &mut String,
    comma: &str,
    profile: &str,
    wrong: Wrong,
) -> Result<(), AllocError> {
    let (key, found, low, most, rule) = wrong;
    writeln!(
        words,
        "config, bursts{comma}{profile}: \"{key}\" is {found}, and not from {low} to {most}{rule}"
    )
}

// That burst descriptors are not lawful: the first wrong number in them.
fn tell_bursts(words: &mut String, config: &Value) -> Result<(), AllocError> {
    match config.get("bursts").and_then(wrong_burst) {
        Some((comma, profile, wrong)) => tell_wrong(words, comma, profile, wrong),
        None => Ok(()),
    }
}

/// That a profile of requests is not lawful: the first wrong number in it.
pub fn tell_wrong_request(words: &mut String, document: &Value) -> Result<(), AllocError> {
    let bursts = document
        .get("config")
        .and_then(|config| config.get("bursts"));
    let request = bursts.and_then(|bursts| bursts.get(REQUEST.0));
    match request.and_then(|request| wrong_in(request, &PROFILES[0])) {
        Some(wrong) => tell_wrong(words, ", ", REQUEST.0, wrong),
        None => Ok(()),
    }
}

/// That a field has no lawful value, with those that it may have.
pub fn tell_field(
    words: &mut String,
    document: &Value,
    field: ConfigFault,
) -> Result<(), AllocError> {
    let (Some(value), Some(config)) = (document.get("config"), config_in(document)) else {
        return Ok(());
    };
    let Some((low, high)) = config.range_of(field) else {
        return tell_bursts(words, value);
    };
    let (key, rule) = (key_of(field), rule_of(&config, field));
    let found = number(value, key);
    write!(words, "config: \"{key}\" is {found}, and ")?;
    if low <= high {
        return writeln!(words, "not from {low} to {high}{rule}");
    }
    writeln!(
        words,
        "no value is lawful with the fields before it: at least {low}, and at most {high}{rule}"
    )
}
