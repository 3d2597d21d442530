//! Where the parts of a picture stand.

ghost use Rattle.std.specs.Prelude.{◌≡◌, ◌+◌, ◌*◌, ◌<◌, ◌≤◌};
ghost use Rattle.sched_calls.specs.declared.reply.TheConstants.{MAX_ENTRIES};
ghost use Rattle.frame_picture.specs.Layout.{slot_units, scale_of, axes_of, axis_top, rows_under, row_top, depth_of};

use minislots::Checked;

/// How the frames of a channel are drawn.
#[derive(Clone, Copy)]
pub struct Scale {
    /// The minislot at which the first frame starts.
    pub start: u64,
    /// The minislots of a frame.
    pub frame: u32,
    /// The ticks of a minislot.
    pub ticks: u32,
    /// How many units a minislot is wide.
    pub units: u32,
    /// Whether idles are open to requests.
    pub opens: bool,
}

/// How many units a minislot is wide, where a frame has so many: as many as fit 1024 times over all of them.
pub fn slot_units(frame: u32) -> u32
    requires { 0 < frame }
    ensures value { result ≡ slot_units frame }
    ensures most { result ≤ 1024 }
{
    1024 / frame
}

// The scale of a channel's frames.
pub(crate) fn scale_of(config: &Checked) -> Scale
    ensures value { result ≡ scale_of config.now }
    ensures some { 0 < result.frame }
    ensures short { result.frame ≤ 1024 }
    ensures narrow { result.units ≤ 1024 }
{
    let frame = config.frame();
    Scale {
        start: config.start(),
        frame,
        ticks: config.ticks(),
        units: slot_units(frame),
        opens: config.open_idle() == 1,
    }
}

// How many axes so many rows have: one at least.
pub(crate) fn axes_of(rows: u64) -> u64
    requires { rows ≤ MAX_ENTRIES }
    ensures { result ≡ axes_of rows }
{
    rows.saturating_sub(1) / 40 + 1
}

// Where the axis with this number begins.
pub(crate) fn axis_top(axis: u64) -> u64
    requires { axis ≤ MAX_ENTRIES }
    ensures { result ≡ axis_top axis }
{
    34 + 1192 * axis
}

// How many of so many rows stand under the axis with this number.
pub(crate) fn rows_under(rows: u64, axis: u64) -> u64
    requires { axis ≤ MAX_ENTRIES }
    ensures value { result ≡ rows_under rows axis }
    ensures most { result ≤ 40 }
{
    rows.saturating_sub(40 * axis).min(40)
}

// Where the row with this number begins.
pub(crate) fn row_top(row: u64) -> u64
    requires { row ≤ MAX_ENTRIES }
    ensures { result ≡ row_top row }
{
    106 + 28 * row + 72 * (row / 40)
}

// How deep a picture of so many rows is.
pub(crate) fn depth_of(rows: u64) -> u64
    requires { rows ≤ MAX_ENTRIES }
    ensures { result ≡ depth_of rows }
{
    42 + 28 * rows + 72 * axes_of(rows)
}
