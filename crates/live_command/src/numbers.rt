//! The numbers of what was answered.

ghost use Rattle.std.specs.Prelude.{◌≡◌, ◌+◌, ◌-◌, ◌^◌, ◌<◌, ◌++◌, ◌∷◌, [], max, List, Some, length};
ghost use Rattle.sched_calls.specs.declared.reply.Entry.{Entry as Recorded};
ghost use Rattle.live_command.specs.Numbers.{AreNumbersOf, no_numbers, clock_of, lesser_with};

use sched_history::{Call, Reply};
use sched_lines::refusal_number;

/// How many numbers a refusal may have: they are counted from 1.
const REFUSALS: usize = 23;

/// The numbers of a list of entries.
#[derive(Clone, Copy)]
pub struct Numbers {
    /// How many entries there are.
    pub entries: u64,
    /// How many MAPs were built.
    pub maps: u64,
    /// How many refusals there are with each number, from 1 on.
    pub refused: [u64; REFUSALS],
    /// The most elements of a MAP, and 0 where there is none.
    pub elements: u64,
    /// The least margin of a build: how many minislots its clock was before the start of its MAP.
    pub margin: Option<u64>,
    /// The most minislots by which the acknowledge time of a MAP was behind its start, and 0 where there is none.
    pub behind: u64,
}

// One more, where that fits.
fn one_more(count: u64) -> u64
    ensures { count < 2 ^ 64 - 1 → result ≡ count + 1 }
{
    count.saturating_add(1)
}

// The greater number.
fn greater(one: u64, other: u64) -> u64
    ensures { result ≡ max one other }
{
    if one <= other { other } else { one }
}

// The lesser of a number and one that there may be.
fn lesser(one: u64, other: Option<u64>) -> u64
    ensures { result ≡ lesser_with one other }
{
    match other {
        Some(number) if number < one => number,
        _ => one,
    }
}

// The clock of a build.
fn clock_of(call: &Call) -> u64
    ensures { result ≡ clock_of call.now }
{
    match call {
        Call::Build { now } => *now,
        _ => 0,
    }
}

impl Numbers {
    /// The numbers of no entries.
    pub(crate) fn none() -> Numbers
        ensures value { result ≡ no_numbers }
        ensures numbers { AreNumbersOf result [] }
    {
        Numbers {
            entries: 0,
            maps: 0,
            refused: [0; REFUSALS],
            elements: 0,
            margin: None,
            behind: 0,
        }
    }

    /// Counts one entry more, of this call and this reply.
    pub(crate) fn count(&mut self, call: &Call, reply: &Reply)
        ensures { (es : List Recorded) (e : Recorded) → e.call ≡ call.now → e.reply ≡ reply.now
            → length es < 2 ^ 64 - 1 → AreNumbersOf self.old es → AreNumbersOf self.new (es ++ e ∷ []) }
    {
        self.entries = one_more(self.entries);
        match reply {
            Reply::Built(map) => {
                self.maps = one_more(self.maps);
                self.elements = greater(self.elements, map.wire.elements.as_slice().len() as u64);
                self.behind = greater(self.behind, map.start.saturating_sub(map.ack));
                let margin = map.start.saturating_sub(clock_of(call));
                self.margin = Some(lesser(margin, self.margin));
            }
            Reply::Refused(refusal) => {
                let place = refusal_number(*refusal) as usize - 1;
                self.refused[place] = one_more(self.refused[place]);
            }
            _ => (),
        }
    }
}
