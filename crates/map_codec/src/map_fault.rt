//! Why a MAP has no bytes.

use thiserror::Error;

/// The first thing that keeps a MAP from having bytes, in the order in which they are tested. A number
/// is that of the least such element, counted from 0.
#[derive(Clone, Copy, Debug, PartialEq, Eq, Error)]
pub enum MapFault {
    /// There are more than 240 elements.
    #[error("the MAP has more than 240 elements")]
    TooMany,
    /// An element has a SID or an offset of 2^14 or above, or a code of 15, which is an expansion, or
    /// above.
    #[error("element {0} has a number that is out of range")]
    OutOfRange(usize),
    /// An element, up to the first Null or to the end where there is none, has an offset below that
    /// of the one before it.
    #[error("element {0} begins before the one before it")]
    Descending(usize),
    /// No element is a Null.
    #[error("no element is a Null")]
    NoNull,
    /// An element is a Null, and so is one before it.
    #[error("element {0} is a second Null")]
    SecondNull(usize),
}
