//! What starts the threads of a storm, and what stops them.

ghost use Rattle.std.specs.Prelude.{◌≡◌, ◌⊎◌, true, ⊤};

use std::marker::PhantomData;
use std::sync::atomic::Ordering::SeqCst;
use std::sync::atomic::{AtomicIn, Rule};
use std::thread::{SpawnError, Threads};

/// What starts threads: all that may.
pub trait Starts: Threads {
    // What is so where a thread was not started. Code that knows no more of what starts threads has it of that alone.
    ghost lacks_thread: { Type 0 };

    /// Tells that a thread was not started, and gives back the work that it was for.
    fn refused<F>(&self, error: SpawnError<F>) -> F
        ensures work { result ≡ error.value }
        ensures lacks { lacks_thread };
}

impl<R: Threads> Starts for R {
    ghost lacks_thread = { ⊤ };

    fn refused<F>(&self, error: SpawnError<F>) -> F {
        let SpawnError { value } = error;
        value
    }
}

// The word of a stop: it is 0, or a thread was not started.
struct Lacking<R: Starts> {
    starts: PhantomData<R>,
}

impl<R: Starts> Rule for Lacking<R> {
    ghost invariant = { λ word. (word ≡ 0) ⊎ R.lacks_thread };
}

/// What stops the workers of a storm where a thread was not started.
#[derive(Drop)]
pub struct Stop<R: Starts> {
    word: AtomicIn<Lacking<R>>,
}

impl<R: Starts> Stop<R> {
    /// The workers go on.
    pub fn new() -> Self {
        Stop {
            word: AtomicIn::new(0),
        }
    }

    /// They stop.
    pub fn set(&self)
        requires { R.lacks_thread }
    {
        self.word.store(1, SeqCst);
    }

    /// Whether they stop.
    pub fn is_set(&self) -> bool
        ensures { result ≡ true → R.lacks_thread }
    {
        self.word.load(SeqCst) != 0
    }
}
