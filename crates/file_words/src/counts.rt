//! What a good file has.

use super::sort::forms_of;
use json_fields::forms::{MOST_FORMS, Sort};
use minislots::Config;
use std::alloc::AllocError;
use std::fmt::Write;

/// How many objects of a sort there are of each form, in the order of the forms.
#[derive(Drop)]
pub struct Counts {
    sort: Sort,
    counts: [u64; MOST_FORMS],
}

impl Counts {
    /// None so far.
    pub fn new(sort: Sort) -> Counts {
        Counts {
            sort,
            counts: [0; MOST_FORMS],
        }
    }

    /// One more of the form of a name.
    pub fn add(&mut self, name: &str) {
        for (form, count) in forms_of(self.sort).iter().zip(self.counts.iter_mut()) {
            if form.0 == name {
                *count = count.saturating_add(1);
            }
        }
    }

    /// How many there are in all.
    pub fn all(&self) -> u64 {
        let mut all = 0u64;
        for count in &self.counts {
            all = all.saturating_add(*count);
        }
        all
    }

    /// How many there are in all, and of each name of which there is one.
    pub fn tell(&self, words: &mut String, what: &str) -> Result<(), AllocError> {
        let all = self.all();
        write!(words, "{what}: {all}")?;
        let mut is_first = true;
        for (form, count) in forms_of(self.sort).iter().zip(&self.counts) {
            if *count != 0 {
                let (between, name) = (if is_first { " (" } else { ", " }, form.0);
                write!(words, "{between}{count} {name}")?;
                is_first = false;
            }
        }
        let end = if all == 0 { "" } else { ")" };
        writeln!(words, "{end}")
    }
}

/// The ending of a noun behind a number.
pub fn ending_of(number: u64) -> &'static str {
    if number == 1 { "" } else { "s" }
}

/// The minislots of a frame, how long it is, and how many there are in a second. A minislot has a number of ticks of
/// 6.25 microseconds.
pub fn tell_frame(words: &mut String, config: &Config) -> Result<(), AllocError> {
    let minislots = config.frame;
    let ticks = u64::from(minislots).saturating_mul(u64::from(config.ticks));
    let hundredths = ticks.saturating_mul(625);
    let (whole, part) = (hundredths / 100, hundredths % 100);
    let rate = 16_000_000u64.checked_div(ticks).unwrap_or(0);
    let (frames, rest) = (rate / 100, rate % 100);
    writeln!(
        words,
        "minislots per frame: {minislots}, {whole}.{part:02} microseconds"
    )?;
    writeln!(words, "frames per second: {frames}.{rest:02}")
}

/// That so many calls are more than the configuration records.
pub fn tell_unrecorded(words: &mut String, config: &Config, calls: u64) -> Result<(), AllocError> {
    let recorded = config.calls;
    let rest = calls.saturating_sub(u64::from(recorded));
    if rest == 0 {
        return Ok(());
    }
    let are = if rest == 1 { "is" } else { "are" };
    writeln!(
        words,
        "config: \"calls\" is {recorded}: {rest} of the {calls} calls {are} not recorded"
    )
}
