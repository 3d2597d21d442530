//! A place in memory that C can hold: where a worker lies, or nothing.

ghost use Rattle.std.specs.Prelude.{◌≡◌, Option, None, Some, IsSome};
ghost use Rattle.worker_sched.specs.Worker.{WorkerState};
ghost use Rattle.mapsched_c.specs.Post.{post_owns, worker_coded};

use crate::place::parts::Parts;
use std::alloc::Global;
use std::marker::Model;
use std::ptr::null_mut;
use worker_sched::Worker;

/// Where a worker lies. It owns the worker that contracts see in it, and nothing where they see none.
#[repr(C)]
#[derive(Drop)]
pub struct Post {
    at: *mut u8,
    alloc: Global,
    pub ghost worker: { Option WorkerState } by { worker_coded },
}

impl Model for Post {
    ghost also_owns = { λ p. post_owns p.alloc p.at p.worker };
}

impl Post {
    // The post of no worker.
    pub(crate) fn empty(alloc: Global) -> Post
        ensures { result.worker ≡ None }
    {
        Post {
            at: null_mut(),
            alloc,
        }
    }

    // The post of the worker in these parts.
    pub(crate) fn of_parts(parts: Parts<Worker, Global>) -> Post
        ensures { result.worker ≡ Some parts.value }
    {
        let Parts { ptr, alloc } = parts;
        Post {
            at: ptr as *mut u8,
            alloc,
        }
    }

    // The parts of the worker in this post.
    pub(crate) fn into_parts(self) -> Parts<Worker, Global>
        requires { IsSome self.worker }
        ensures { Some result.value ≡ self.worker }
    {
        let Post { at, alloc } = self;
        Parts {
            ptr: at as *mut Worker,
            alloc,
        }
    }
}

// A worker goes from one thread to another.
unsafe impl Send for Post {}
