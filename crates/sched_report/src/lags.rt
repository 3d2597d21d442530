//! How far the progress of receivers is behind the MAPs.

ghost use Rattle.std.specs.Prelude.{◌≡◌, ◌-◌, ◌<◌, ℕ, max, slice_index};
ghost use Rattle.sched_report.specs.Extremes.{most_receivers};

/// How many receivers a channel has at most.
pub const RECEIVERS: usize = 16;

// Raises the lag of each receiver to that of a MAP that starts there, where its progress is this.
pub(crate) fn raise_lags(lags: &mut [u64; RECEIVERS], start: u64, progress: &[u64; RECEIVERS])
    ensures { (receiver : ℕ) → receiver < most_receivers → slice_index lags.new receiver
        ≡ max (slice_index lags.old receiver) (start - slice_index progress.now receiver) }
{
    for receiver in 0..RECEIVERS {
        let lag = start.saturating_sub(progress[receiver]);
        lags[receiver] = lags[receiver].max(lag);
    }
}
