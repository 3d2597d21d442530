//! What is kept of the changes of the UCD count, by which MAPs settle.

ghost use Rattle.std.specs.Prelude.{◌≡◌, ◌<◌, ◌==◌, not, false, None};
ghost use Rattle.std.specs.Option.{option_map_or};
ghost use Rattle.sched_history.specs.Settling.{is_near, settling_with};

use minislots::Checked;

// The UCD count of the last MAP, or the configuration's, and where the last MAP starts that changed it.
#[derive(Clone, Copy)]
pub(crate) struct Settling {
    pub(crate) count: u8,
    pub(crate) change: Option<u64>,
}

impl Settling {
    // Before any MAP.
    pub(crate) fn of(config: &Checked) -> Settling
        ensures { result ≡ record { count = config.now.ucd_count; change = None } }
    {
        Settling {
            count: config.ucd_count(),
            change: None,
        }
    }

    // Follows a MAP of this UCD count that starts there.
    pub(crate) fn follow(&mut self, count: u8, start: u64)
        ensures { self.new ≡ settling_with count start self.old }
    {
        if count != self.count {
            self.change = Some(start);
        }
        self.count = count;
    }

    // Whether a MAP of this UCD count changes.
    pub(crate) fn changes(&self, count: u8) -> bool
        ensures { result ≡ not (count == self.now.count) }
    {
        count != self.count
    }

    // Whether a MAP that starts there is less than so many minislots, one at least, behind the last change.
    pub(crate) fn is_near(&self, start: u64, settle: u32) -> bool
        requires { 0 < settle }
        ensures { result ≡ option_map_or (is_near settle start) self.now.change false }
    {
        match self.change {
            Some(change) => start.saturating_sub(change) < u64::from(settle),
            None => false,
        }
    }
}
