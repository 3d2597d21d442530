//! Arrays of whole numbers.

ghost use Rattle.std.specs.Prelude.{◌≡◌, ◌^◌, map, IfOk, option_map};
ghost use Rattle.serde_json.specs.View.{items_of};
ghost use Rattle.state_text.specs.Found.{number_in, each_in, each_at};

use json_fields::{Tree, member};
use std::alloc::{AllocError, Global};

// The number that a value is, where it fits.
#[tactic(auto, unfolding(crate::specs::Found::number_in))]
fn start_in<T: Tree>(value: &T) -> Option<u16>
    ensures { result ≡ number_in (2 ^ 16) (T.shown value.now) }
{
    u16::try_from(value.whole()?).ok()
}

// The number that a value is.
#[tactic(auto, unfolding(crate::specs::Found::number_in))]
fn slot_in<T: Tree>(value: &T) -> Option<u64>
    ensures { result ≡ number_in (2 ^ 64) (T.shown value.now) }
{
    value.whole()
}

// The starts that values are.
fn starts_in<T: Tree>(alloc: Global, values: &[T]) -> Result<Option<Vec<u16>>, AllocError>
    ensures { IfOk result (λ found. option_map (λ v. v.items) found
        ≡ each_in (number_in (2 ^ 16)) (items_of (map T.shown values.now))) }
{
    let mut found = Vec::with_capacity(alloc, values.len())?;
    for value in values {
        let Some(one) = start_in(value) else {
            return Ok(None);
        };
        found.push_reserved(one);
    }
    Ok(Some(found))
}

// The minislots that values are.
fn slots_in<T: Tree>(alloc: Global, values: &[T]) -> Result<Option<Vec<u64>>, AllocError>
    ensures { IfOk result (λ found. option_map (λ v. v.items) found
        ≡ each_in (number_in (2 ^ 64)) (items_of (map T.shown values.now))) }
{
    let mut found = Vec::with_capacity(alloc, values.len())?;
    for value in values {
        let Some(one) = slot_in(value) else {
            return Ok(None);
        };
        found.push_reserved(one);
    }
    Ok(Some(found))
}

/// The starts of the array under this key.
#[tactic(auto, unfolding(crate::specs::Found::each_at))]
pub(crate) fn starts_at<T: Tree>(
    alloc: Global,
    value: &T,
    key: &str,
) -> Result<Option<Vec<u16>>, AllocError>
    ensures { IfOk result (λ found. option_map (λ v. v.items) found
        ≡ each_at (number_in (2 ^ 16)) key.now (T.shown value.now)) }
{
    match member(value, key).and_then(Tree::items) {
        Some(values) => starts_in(alloc, values),
        None => Ok(None),
    }
}

/// The minislots of the array under this key.
#[tactic(auto, unfolding(crate::specs::Found::each_at))]
pub(crate) fn progress_at<T: Tree>(
    alloc: Global,
    value: &T,
    key: &str,
) -> Result<Option<Vec<u64>>, AllocError>
    ensures { IfOk result (λ found. option_map (λ v. v.items) found
        ≡ each_at (number_in (2 ^ 64)) key.now (T.shown value.now)) }
{
    match member(value, key).and_then(Tree::items) {
        Some(values) => slots_in(alloc, values),
        None => Ok(None),
    }
}
