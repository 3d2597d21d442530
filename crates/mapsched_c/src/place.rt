//! A place in memory that C can hold: where a scheduler lies, or nothing.

ghost use Rattle.std.specs.Prelude.{◌≡◌, Option, None, Some, IsSome};
ghost use Rattle.sched_history.specs.Machine.{Machine};
ghost use Rattle.mapsched_c.specs.Place.{place_owns, machine_coded};

pub(crate) mod parts;

use parts::Parts;
use sched_history::Scheduler;
use std::alloc::Global;
use std::marker::Model;
use std::ptr::null_mut;

/// Where a scheduler lies. It owns the scheduler that contracts see in it, and nothing where they see none.
#[repr(C)]
#[derive(Drop)]
pub struct Place {
    at: *mut u8,
    alloc: Global,
    pub ghost machine: { Option Machine } by { machine_coded },
}

impl Model for Place {
    ghost also_owns = { λ p. place_owns p.alloc p.at p.machine };
}

impl Place {
    // The place of no scheduler.
    pub(crate) fn empty(alloc: Global) -> Place
        ensures { result.machine ≡ None }
    {
        Place {
            at: null_mut(),
            alloc,
        }
    }

    // The place of the scheduler in these parts.
    pub(crate) fn of_parts(parts: Parts<Scheduler, Global>) -> Place
        ensures { result.machine ≡ Some parts.value }
    {
        let Parts { ptr, alloc } = parts;
        Place {
            at: ptr as *mut u8,
            alloc,
        }
    }

    // The parts of the scheduler in this place.
    pub(crate) fn into_parts(self) -> Parts<Scheduler, Global>
        requires { IsSome self.machine }
        ensures { Some result.value ≡ self.machine }
    {
        let Place { at, alloc } = self;
        Parts {
            ptr: at as *mut Scheduler,
            alloc,
        }
    }
}

// A scheduler goes from one thread to another.
unsafe impl Send for Place {}
