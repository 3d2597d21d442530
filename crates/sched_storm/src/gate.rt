//! What tells the workers of a storm when they may go on.

ghost use Rattle.std.specs.Prelude.{◌≡◌, ℕ, true, false, ⊤};

/// Asked by each worker before a call, and told after it. Workers ask it at the same time. A worker that
/// asked 1000000 times in vain before one call gives up.
pub trait Gate: Sync {
    // What is so where the gate lets this worker pass to the call at this place, and where it does not. A gate that
    // says neither may answer as it likes.
    ghost lets_pass: { Self → ℕ → ℕ → Type 0 } = { λ _ _ _. ⊤ };

    ghost holds_back: { Self → ℕ → ℕ → Type 0 } = { λ _ _ _. ⊤ };

    /// Whether the worker may make its call at this place of its script, counted from 0.
    fn pass(&self, worker: usize, index: usize) -> bool
        ensures passes { result ≡ true → lets_pass self.now worker index }
        ensures waits { result ≡ false → holds_back self.now worker index };

    /// The worker's call at this place was answered.
    fn answered(&self, worker: usize, index: usize);
}

/// The program's own gate: every call passes.
pub(crate) struct Open;

impl Gate for Open {
    ghost holds_back = { λ _ _ _. ⊥ };

    fn pass(&self, _worker: usize, _index: usize) -> bool {
        true
    }

    fn answered(&self, _worker: usize, _index: usize) {}
}
