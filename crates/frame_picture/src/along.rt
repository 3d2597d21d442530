//! What the entries before a frame tell of it.

ghost use Rattle.std.specs.Prelude.{◌≡◌, ◌+◌, ◌-◌, ◌^◌, ◌<◌, ◌≤◌, ◌++◌, ◌∷◌, [], List, length};
ghost use Rattle.sched_calls.specs.declared.reply.Entry.{Entry};
ghost use Rattle.sched_history.specs.History.{map_by};
ghost use Rattle.frame_picture.specs.Along.{end_by, left_out, IsAlong};
ghost use Rattle.frame_picture.specs.Frames.{frame_by, frames_of};

use crate::flows::{Flows, no_flows, note};
use crate::layout::Scale;
use sched_history::{Entry, Reply};

// What the entries before a frame tell of it.
#[derive(Drop)]
pub struct Along {
    // Whether the flow that lives under each SID is unsolicited.
    pub(crate) flows: Flows,
    // The number of the frame, counted from 0.
    pub(crate) number: u64,
    // The minislot at which it starts if no frame is left out.
    pub(crate) next: u128,
}

// How many MAPs an entry has.
pub(crate) fn count_map(entry: &Entry) -> u64
    ensures value { result ≡ length (frame_by [] (map_by entry.now.reply)) }
    ensures most { result ≤ 1 }
{
    match entry.reply {
        Reply::Built(_) => 1,
        _ => 0,
    }
}

// Where the frame of an entry's MAP ends, if it has one.
fn end_by(frame: u32, entry: &Entry) -> Option<u128>
    ensures { result ≡ end_by frame entry.now.reply }
{
    match &entry.reply {
        Reply::Built(map) => Some(u128::from(map.start) + u128::from(frame)),
        _ => None,
    }
}

// How many frames are left out where the next one could start there, and starts there.
pub(crate) fn left_out(scale: Scale, next: u128, start: u64) -> u64
    requires { 0 < scale.frame }
    ensures { result ≡ left_out scale next start }
{
    let gap = u128::from(start).saturating_sub(next) as u64;
    gap / u64::from(scale.frame)
}

// What no entry tells.
pub(crate) fn along_none(scale: Scale) -> Along
    ensures known { IsAlong scale result [] }
    ensures first { result.number ≡ 0 }
{
    Along {
        flows: no_flows(),
        number: 0,
        next: u128::from(scale.start),
    }
}

// What is told with one entry more.
pub(crate) fn go_along(along: &mut Along, scale: Scale, entry: &Entry)
    requires { along.old.number < 2 ^ 64 - 1 }
    ensures { (h : List Entry)
        → IsAlong scale along.old h → IsAlong scale along.new (h ++ entry.now ∷ []) }
{
    along.number += count_map(entry);
    along.next = end_by(scale.frame, entry).unwrap_or(along.next);
    note(&mut along.flows, entry);
}
