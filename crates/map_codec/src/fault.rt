//! Why bytes are no payload.

ghost use Rattle.std.specs.Prelude.{◌≡◌};
ghost use Rattle.map_codec.specs.declared.fault.DecodeFault.TheVariants.{Memory};

use std::alloc::AllocError;
use thiserror::Error;

/// The first thing that is wrong with the bytes, in the order in which they are tested. A number is
/// that of the least such element, counted from 0.
#[derive(Clone, Copy, Debug, PartialEq, Eq, Error)]
pub enum DecodeFault {
    /// There are fewer than the 16 fixed bytes.
    #[error("the payload is shorter than its 16 fixed bytes")]
    Short,
    /// The number of elements is above 240.
    #[error("the payload counts more than 240 elements")]
    TooMany,
    /// The elements do not take up the rest of the bytes, four bytes each.
    #[error("the payload's length is not that of its elements")]
    WrongLength,
    /// An element is an expansion (IUC 15).
    #[error("element {0} is an expansion")]
    Expansion(usize),
    /// An element, up to the first Null or to the end where there is none, has an offset below that
    /// of the one before it.
    #[error("element {0} begins before the one before it")]
    Descending(usize),
    /// No element is a Null.
    #[error("no element is a Null")]
    NoNull,
    /// An element is a Null, and so is one before it.
    #[error("element {0} is a second Null")]
    SecondNull(usize),
    /// There was no memory for the elements of bytes with no fault.
    #[error("out of memory")]
    Memory,
}

impl From<AllocError> for DecodeFault {
    ghost from_gives = { λ _ e. e ≡ Memory };

    fn from(_e: AllocError) -> DecodeFault {
        DecodeFault::Memory
    }
}
