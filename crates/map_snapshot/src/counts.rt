//! The words of a press.
ghost use Rattle.std.specs.Prelude.{◌≡◌, IfOk};

use crate::latest::Latest;
use crate::list::Count;
use std::alloc::{AllocError, Global};

/// The word that counts the list, and the one by which readers see that it grew.
#[derive(Drop)]
pub struct Counts {
    pub(crate) list: Count,
    pub(crate) latest: Latest,
}

impl Counts {
    // Nothing was listed.
    pub(crate) fn new(alloc: Global, list: Count) -> Result<Counts, AllocError>
        ensures made { IfOk result (λ c. c.list ≡ list) }
    {
        Ok(Counts {
            list,
            latest: Latest::new(alloc)?,
        })
    }
}
