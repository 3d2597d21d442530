//! The requests of a flow that wait, in two batches: since when it waits, with a state that does not grow.

ghost use Rattle.std.specs.Prelude.{◌≡◌, ◌<◌, ◌≤◌, ◌+◌, ◌^◌};
ghost use Rattle.flow_book.specs.Batches.{no_batches, with_request, since_of};
ghost use Rattle.flow_book.specs.FlowState.{batch_state};
ghost use Rattle.flow_book.specs.Carried.{carried_batches};

use sched_calls::BatchState;

/// The requests of a flow in two batches, as they were behind its last request. A request joins the second where bytes
/// of the first are not granted yet.
#[derive(Clone, Copy, Debug, PartialEq, Eq)]
pub struct Batches {
    /// The bytes that the flow had asked up to the end of the first.
    pub end: u64,
    /// The least minislot in which a request of the first was heard.
    pub first: u64,
    /// The same of the second, where there is one.
    pub second: Option<u64>,
}

impl Batches {
    // Those of a flow that has requested nothing.
    pub(crate) fn none() -> Batches
        ensures { result ≡ no_batches }
    {
        Batches {
            end: 0,
            first: 0,
            second: None,
        }
    }

    // Those that a state tells.
    pub(crate) fn carried(state: Option<BatchState>) -> Batches
        ensures { result ≡ carried_batches state }
    {
        let Some(BatchState { end, first, second }) = state else {
            return Batches::none();
        };
        Batches { end, first, second }
    }

    // Those with a request of so many bytes more, which was heard at a minislot, of a flow that had asked and was
    // granted so many.
    pub(crate) fn with_request(&self, asked: u64, granted: u64, bytes: u32, heard: u64) -> Batches
        requires { asked + bytes < 2 ^ 64 }
        ensures { result ≡ with_request self.now asked granted bytes heard }
    {
        if asked == granted {
            return Batches {
                end: asked + u64::from(bytes),
                first: heard,
                second: None,
            };
        }
        if self.end <= granted {
            return Batches {
                end: asked,
                first: self.second.unwrap_or(self.first),
                second: Some(heard),
            };
        }
        let second = self.second.unwrap_or(heard).min(heard);
        Batches {
            end: self.end,
            first: self.first,
            second: Some(second),
        }
    }

    // Those that are not over, of a flow that asked and was granted so many bytes.
    pub(crate) fn state(&self, asked: u64, granted: u64) -> Option<BatchState>
        ensures { result ≡ batch_state self.now asked granted }
    {
        if asked == granted {
            return None;
        }
        let Batches {
            mut end,
            mut first,
            mut second,
        } = *self;
        if end <= granted {
            end = asked;
            first = second.unwrap_or(first);
            second = None;
        }
        Some(BatchState { end, first, second })
    }

    // The least minislot in which a request of the batches was heard of which bytes wait, where so many bytes are
    // granted.
    pub(crate) fn since(&self, granted: u64) -> u64
        ensures { result ≡ since_of self.now granted }
    {
        let second = self.second.unwrap_or(self.first);
        if self.end <= granted {
            return second;
        }
        self.first.min(second)
    }
}
