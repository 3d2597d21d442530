//! The times of a state, its header, and where the UCD count changed.

ghost use Rattle.std.specs.Prelude.{◌≡◌, ◌≤◌, true, false, IfSome};
ghost use Rattle.std.specs.List.{AllByRecursion};
ghost use Rattle.channel_states.specs.Possible.{HasPossibleTimes, IsPossibleHeader, IsPossibleChange};

use minislots::Checked;
use sched_calls::{ChannelState, Header};

// The most minislots that a frame may end ahead of the greatest clock, and the clock.
const LAST_NEXT: u64 = (1 << 60) + 4096;

// The greatest exponent of a backoff window.
const LAST_EXPONENT: u8 = 15;

// Whether the acknowledge time, the progress of the receivers and the start of the next frame may be these.
pub(crate) fn has_possible_times(config: &Checked, state: &ChannelState) -> bool
    ensures possible { result ≡ true → HasPossibleTimes config.now state.now }
    ensures impossible { result ≡ false → HasPossibleTimes config.now state.now → ⊥ }
{
    let progress = state.progress.as_slice();
    if progress.len() != usize::from(config.receivers()) || state.ack < config.start() {
        return false;
    }
    if state.next > LAST_NEXT || state.next % u64::from(config.frame()) != 0 {
        return false;
    }
    is_progress_within(progress, state.ack, state.next)
}

// Whether each progress stands from the acknowledge time to the start of the next frame.
fn is_progress_within(progress: &[u64], ack: u64, next: u64) -> bool
    ensures acknowledged { result ≡ true → AllByRecursion (λ slot. ack ≤ slot) progress.now }
    ensures described { result ≡ true → AllByRecursion (λ slot. slot ≤ next) progress.now }
    ensures outside { result ≡ false → AllByRecursion (λ slot. ack ≤ slot) progress.now
        → AllByRecursion (λ slot. slot ≤ next) progress.now → ⊥ }
{
    for slot in progress {
        if *slot < ack || next < *slot {
            return false;
        }
    }
    true
}

// Whether the header may be set.
pub(crate) fn is_possible_header(header: &Header) -> bool
    ensures possible { result ≡ true → IsPossibleHeader header.now }
    ensures impossible { result ≡ false → IsPossibleHeader header.now → ⊥ }
{
    header.ranging_start <= LAST_EXPONENT
        && header.ranging_end <= LAST_EXPONENT
        && header.data_start <= LAST_EXPONENT
        && header.data_end <= LAST_EXPONENT
}

// Whether the last MAP that changed the UCD count may have started there, where there is one.
pub(crate) fn is_possible_change(config: &Checked, next: u64, change: Option<u64>) -> bool
    ensures possible { result ≡ true → IfSome change (IsPossibleChange config.now next) }
    ensures impossible { result ≡ false → IfSome change (IsPossibleChange config.now next) → ⊥ }
{
    let frame = u64::from(config.frame());
    match change {
        Some(start) => {
            start % frame == 0 && config.start() <= start && start < next && next - start >= frame
        }
        None => true,
    }
}
