//! The command over what the program has: an input, and standard output, which is written with no buffer, so that
//! nothing is left to flush.

use crate::check::run_check_any;
use crate::form::CheckForm;
use crate::front::Front;
use crate::verdict::Verdict;
use std::io;
use text_stream::{RunFault, Source, Watched};

/// The command `check`: the verdict on the file.
pub fn check_any_input<R: Source + Drop>(
    rt: &(impl Print + AllocGlobal),
    reader: R,
    form: CheckForm,
) -> Result<Verdict, RunFault> {
    let mut front = Front::new(rt.alloc(), reader);
    run_check_any(
        rt.alloc(),
        form,
        &mut front,
        &mut Watched::new(io::writer(rt)),
    )
}
