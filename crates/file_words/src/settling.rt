//! What is said of how long a channel settles.

use minislots::Config;
use std::alloc::AllocError;
use std::fmt::Write;

// The ticks of 6.25 microseconds in the 1.5 milliseconds after which modems go by another channel descriptor.
const TICKS: u32 = 240;

/// That a lawful configuration settles, and is done before modems are.
pub fn tell_settle(words: &mut String, config: &Config) -> Result<(), AllocError> {
    let Ok(config) = config.check() else {
        return Ok(());
    };
    let (settle, least) = (config.settle(), TICKS.div_ceil(config.ticks()));
    if settle == 0 || settle >= least {
        return Ok(());
    }
    writeln!(
        words,
        "config: \"settle\" is {settle}: the 1.5 milliseconds that modems take to settle are {least} minislots"
    )
}
