//! What is said of the burst descriptors of a lawful configuration.

use super::config::tell_wrong_request;
use super::counts::ending_of;
use bursts_command::{request_of, slots_by};
use minislots::{Bursts, Checked, Config, Profile};
use serde_json::Value;
use std::alloc::AllocError;
use std::fmt::Write;

// Whether a data grant of any bytes is short. None is that has more bytes than the longest short grant carries.
fn has_short_grants(config: &Checked) -> bool {
    let most = config.bytes_in(config.short_max());
    for bytes in 1..=u32::try_from(most).unwrap_or(u32::MAX) {
        if config.grant_size(bytes).is_short {
            return true;
        }
    }
    false
}

// That no data grant is short.
fn tell_no_short(words: &mut String, config: &Checked) -> Result<(), AllocError> {
    let most = config.short_max();
    let s = ending_of(u64::from(most));
    writeln!(
        words,
        "config, bursts: no data grant is short: each takes more by \"short\" than {most} minislot{s} or than by \
         \"long\""
    )
}

// The first of the lengths of a request that takes more than so many minislots, and how many it takes.
fn too_long(config: &Checked, request: Profile, most: u32) -> Option<(u32, u64)> {
    for bytes in [6, 7] {
        let slots = slots_by(config, request, bytes)?;
        if slots > u64::from(most) {
            return Some((bytes, slots));
        }
    }
    None
}

// That a request takes more minislots than stand under a key.
fn tell_too_long(
    words: &mut String,
    config: &Checked,
    request: Profile,
    key: &str,
    most: u32,
) -> Result<(), AllocError> {
    match too_long(config, request, most) {
        Some((bytes, slots)) => writeln!(
            words,
            "config: \"{key}\" is {most}: a request of {bytes} bytes takes {slots} minislots"
        ),
        None => Ok(()),
    }
}

/// What the burst descriptors of a document's lawful configuration, where it has some, leave to be asked: that no data
/// grant is short, and of a profile of requests that it is not lawful, or that a poll or the request region is too
/// short for one.
pub fn tell_bursts(
    words: &mut String,
    config: &Config,
    document: &Value,
) -> Result<(), AllocError> {
    let (Bursts::Described(_), Ok(config)) = (config.bursts, config.check()) else {
        return Ok(());
    };
    if !has_short_grants(&config) {
        tell_no_short(words, &config)?;
    }
    let Some(request) = request_of(document) else {
        return Ok(());
    };
    tell_wrong_request(words, document)?;
    tell_too_long(words, &config, request, "req_slots", config.req_slots())?;
    tell_too_long(words, &config, request, "poll_slots", config.poll_slots())
}
