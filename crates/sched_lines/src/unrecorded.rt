//! The words on the calls of a run that were not recorded.

/// Tells on standard error how many calls were not recorded, where there are any.
pub fn tell_unrecorded(rt: &impl Eprint, calls: usize) {
    let _ = match calls {
        0 => Ok(()),
        1 => rt.eprintln("1 call was not recorded"),
        _ => rt.eprintln(format_args!("{calls} calls were not recorded")),
    };
}
