//! What C holds of a worker: a handle, empty or full.

ghost use Rattle.std.specs.Prelude.{◌≡◌, ◌≢◌, None, Some, IsSome, is_some, option_map};

use crate::place::parts::Parts;
use crate::post::Post;
use std::alloc::Global;
use std::mem::replace;
use worker_sched::Worker;

/// A worker that C holds, or none: all zeros are a handle that is empty. It is neither copied nor
/// changed by C.
#[repr(C)]
#[derive(Drop)]
pub struct WorkerHandle {
    full: u32,
    /// Where the worker lies, if there is one.
    pub post: Post,
    ghost empty: { full ≡ 0 → post.worker ≡ None },
    ghost holds: { full ≢ 0 → IsSome post.worker },
}

impl WorkerHandle {
    // A handle of no worker.
    fn empty(alloc: Global) -> WorkerHandle
        ensures { result.post.worker ≡ None }
    {
        WorkerHandle {
            full: 0,
            post: Post::empty(alloc),
        }
    }

    // Whether there is a worker.
    pub(crate) fn is_full(&self) -> bool
        ensures { result ≡ is_some self.now.post.worker }
    {
        self.full != 0
    }

    // Takes the worker out, where there is one.
    pub(crate) fn take(&mut self, alloc: Global) -> Option<Box<Worker>>
        ensures taken { option_map (λ b. b.value) result ≡ self.old.post.worker }
        ensures empty { self.new.post.worker ≡ None }
    {
        if self.full == 0 {
            return None;
        }
        let WorkerHandle { full: _, post } = replace(self, WorkerHandle::empty(alloc));
        Some(post.into_parts().into_box())
    }

    // Puts a worker in, where there is none.
    pub(crate) fn put(&mut self, worker: Box<Worker>)
        requires { self.old.post.worker ≡ None }
        ensures { self.new.post.worker ≡ Some worker.value }
    {
        *self = WorkerHandle {
            full: 1,
            post: Post::of_parts(Parts::of(worker)),
        };
    }
}
