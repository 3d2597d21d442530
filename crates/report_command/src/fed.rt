//! The entries of a history, taken one by one.

ghost use Rattle.std.specs.Prelude.{◌≡◌, ◌≤◌, length, IfOk, IfErr};
ghost use Rattle.sched_calls.specs.declared.reply.TheConstants.{MAX_ENTRIES};
ghost use Rattle.report_command.specs.Report.{IsFed};

use crate::range::Range;
use crate::ranged::RangedReporter;
use minislots::Checked;
use report_picture::TimedReporter;
use sched_history::{Entry, JudgeFault};
use std::alloc::Global;
use text_stream::TextFault;

// What the entries of a history are.
#[derive(Drop)]
pub(crate) enum Fed {
    // Legal: the reporter tells of them.
    Legal(TimedReporter),
    // This one, counted from 0, is the first that may not follow those before it.
    Illegal(usize),
}

// Shows a history to a reporter of this range, entry by entry, up to the end of what is told.
#[inline(never)]
pub(crate) fn feed(
    alloc: Global,
    config: &Checked,
    entries: &[Entry],
    range: Range,
) -> Result<Fed, TextFault>
    requires { length entries.now ≤ MAX_ENTRIES }
    ensures ok { IfOk result (IsFed config.now range entries.now) }
    ensures err { IfErr result (λ e. e ≡ TextFault.Memory) }
{
    let Ok(mut reporter) = RangedReporter::open(alloc, *config, range) else {
        return Err(TextFault::Memory);
    };
    for index in 0..entries.len() {
        if reporter.is_over() {
            return Ok(Fed::Legal(reporter.end()));
        }
        match reporter.take(&entries[index]) {
            Ok(()) => {}
            Err(JudgeFault::Illegal) => return Ok(Fed::Illegal(index)),
            Err(JudgeFault::Memory) => return Err(TextFault::Memory),
            // There are fewer than a reporter takes.
            Err(JudgeFault::Full) => unreachable!(),
        }
    }
    Ok(Fed::Legal(reporter.end()))
}
