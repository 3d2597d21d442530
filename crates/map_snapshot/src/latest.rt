//! Whether a press has listed more than a reader knows.

use crossbeam_utils::CachePadded;
use std::alloc::{AllocError, Global};
use std::sync::Arc;
use std::sync::atomic::AtomicU64;
use std::sync::atomic::Ordering::SeqCst;

/// The version that a press listed last, in a word on lines of its own that no rule reads. It is raised before readers
/// are shown that version: a reader that knows as many maps has the newest, and need not enter.
#[derive(Drop)]
pub struct Latest {
    version: Arc<CachePadded<AtomicU64>, Global>,
}

impl Latest {
    // Nothing was listed.
    pub(crate) fn new(alloc: Global) -> Result<Latest, AllocError> {
        Ok(Latest {
            version: Arc::new(alloc, CachePadded::new(AtomicU64::new(0)))?,
        })
    }

    // The same word, for a reader.
    pub(crate) fn another(&self) -> Result<Latest, AllocError> {
        Ok(Latest {
            version: Arc::try_clone(&self.version)?,
        })
    }

    // This version was listed.
    pub(crate) fn raise(&self, version: u64) {
        self.version.store(version, SeqCst);
    }

    // Whether a later version was listed.
    #[inline(always)]
    pub(crate) fn is_past(&self, version: u64) -> bool {
        self.version.load(SeqCst) > version
    }
}
