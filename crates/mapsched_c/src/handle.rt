//! What C holds of a scheduler: a handle, empty or full.

ghost use Rattle.std.specs.Prelude.{◌≡◌, ◌≢◌, None, Some, IsSome, is_some, option_map};

use crate::place::Place;
use crate::place::parts::Parts;
use sched_history::Scheduler;
use std::alloc::Global;
use std::mem::replace;

/// A scheduler that C holds, or none: all zeros are a handle that is empty. It is neither copied nor
/// changed by C.
#[repr(C)]
#[derive(Drop)]
pub struct Handle {
    full: u32,
    /// Where the scheduler lies, if there is one.
    pub place: Place,
    ghost empty: { full ≡ 0 → place.machine ≡ None },
    ghost holds: { full ≢ 0 → IsSome place.machine },
}

impl Handle {
    // A handle of no scheduler.
    fn empty(alloc: Global) -> Handle
        ensures { result.place.machine ≡ None }
    {
        Handle {
            full: 0,
            place: Place::empty(alloc),
        }
    }

    // Whether there is a scheduler.
    pub(crate) fn is_full(&self) -> bool
        ensures { result ≡ is_some self.now.place.machine }
    {
        self.full != 0
    }

    // Takes the scheduler out, where there is one.
    pub(crate) fn take(&mut self, alloc: Global) -> Option<Box<Scheduler>>
        ensures taken { option_map (λ b. b.value) result ≡ self.old.place.machine }
        ensures empty { self.new.place.machine ≡ None }
    {
        if self.full == 0 {
            return None;
        }
        let Handle { full: _, place } = replace(self, Handle::empty(alloc));
        Some(place.into_parts().into_box())
    }

    // Puts a scheduler in, where there is none.
    pub(crate) fn put(&mut self, scheduler: Box<Scheduler>)
        requires { self.old.place.machine ≡ None }
        ensures { self.new.place.machine ≡ Some scheduler.value }
    {
        *self = Handle {
            full: 1,
            place: Place::of_parts(Parts::of(scheduler)),
        };
    }
}
