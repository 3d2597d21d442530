//! The starts of a placement that is looked for.

ghost use Rattle.std.specs.Prelude.{◌≡◌, ◌+◌, ◌≤◌, ◌++◌, [], length};
ghost use Rattle.periodic.specs.declared.TheConstants.{MAX_STARTS};
ghost use Rattle.periodic.specs.Search.{starts_of};

use crate::MAX_STARTS;

// The starts in the first nominal frames of the cycle.
#[derive(Clone, Copy)]
pub(crate) struct Row {
    pub(crate) starts: [u16; MAX_STARTS],
    pub(crate) count: usize,
}

impl Row {
    // A row of no starts.
    pub(crate) fn empty() -> Row
        ensures { starts_of result ≡ [] }
    {
        Row {
            starts: [0; MAX_STARTS],
            count: 0,
        }
    }

    // The starts, in the order of the nominal frames.
    pub(crate) fn starts(&self) -> &[u16]
        requires { self.now.count ≤ MAX_STARTS }
        ensures { result.now ≡ starts_of self.now }
    {
        &self.starts[..self.count]
    }

    // Adds the starts of a frame.
    pub(crate) fn push(&mut self, starts: &[u16])
        requires { self.old.count + length starts.now ≤ MAX_STARTS }
        ensures starts { starts_of self.new ≡ starts_of self.old ++ starts.now }
        ensures count { self.new.count ≡ self.old.count + length starts.now }
    {
        for start in starts {
            self.starts[self.count] = *start;
            self.count += 1;
        }
    }
}
