//! Whole numbers in the arrays of a JSON object.

ghost use Rattle.std.specs.Prelude.{◌≡◌, ◌^◌, map, IfOk, option_map};
ghost use Rattle.serde_json.specs.View.{items_of};
ghost use Rattle.history_reading.specs.Replies.{number_below, numbers_of, numbers_at};

use json_fields::{Tree, member};
use std::alloc::{AllocError, Global};

// The number that a value is, where it fits.
#[tactic(auto, unfolding(crate::specs::Replies::number_below))]
fn number_u16<T: Tree>(value: &T) -> Option<u16>
    ensures { result ≡ number_below (2 ^ 16) (T.shown value.now) }
{
    u16::try_from(value.whole()?).ok()
}

// The number that a value is, where it fits.
#[tactic(auto, unfolding(crate::specs::Replies::number_below))]
fn number_u32<T: Tree>(value: &T) -> Option<u32>
    ensures { result ≡ number_below (2 ^ 32) (T.shown value.now) }
{
    u32::try_from(value.whole()?).ok()
}

// The numbers that values are, where each fits.
fn each_u16<T: Tree>(alloc: Global, values: &[T]) -> Result<Option<Vec<u16>>, AllocError>
    ensures { IfOk result (λ numbers. option_map (λ v. v.items) numbers
        ≡ numbers_of (2 ^ 16) (items_of (map T.shown values.now))) }
{
    let mut numbers = Vec::with_capacity(alloc, values.len())?;
    for value in values {
        let Some(number) = number_u16(value) else {
            return Ok(None);
        };
        numbers.push_reserved(number);
    }
    Ok(Some(numbers))
}

// The numbers that values are, where each fits.
fn each_u32<T: Tree>(alloc: Global, values: &[T]) -> Result<Option<Vec<u32>>, AllocError>
    ensures { IfOk result (λ numbers. option_map (λ v. v.items) numbers
        ≡ numbers_of (2 ^ 32) (items_of (map T.shown values.now))) }
{
    let mut numbers = Vec::with_capacity(alloc, values.len())?;
    for value in values {
        let Some(number) = number_u32(value) else {
            return Ok(None);
        };
        numbers.push_reserved(number);
    }
    Ok(Some(numbers))
}

/// The numbers of the array under this key, where each fits.
#[tactic(auto, unfolding(crate::specs::Replies::numbers_at))]
pub fn numbers_u16<T: Tree>(
    alloc: Global,
    value: &T,
    key: &str,
) -> Result<Option<Vec<u16>>, AllocError>
    ensures { IfOk result (λ numbers.
        option_map (λ v. v.items) numbers ≡ numbers_at (2 ^ 16) key.now (T.shown value.now)) }
{
    match member(value, key).and_then(Tree::items) {
        Some(values) => each_u16(alloc, values),
        None => Ok(None),
    }
}

/// The numbers of the array under this key, where each fits.
#[tactic(auto, unfolding(crate::specs::Replies::numbers_at))]
pub fn numbers_u32<T: Tree>(
    alloc: Global,
    value: &T,
    key: &str,
) -> Result<Option<Vec<u32>>, AllocError>
    ensures { IfOk result (λ numbers.
        option_map (λ v. v.items) numbers ≡ numbers_at (2 ^ 32) key.now (T.shown value.now)) }
{
    match member(value, key).and_then(Tree::items) {
        Some(values) => each_u32(alloc, values),
        None => Ok(None),
    }
}
