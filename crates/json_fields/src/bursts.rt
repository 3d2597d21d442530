//! The bursts that a JSON object stands for: burst descriptors, or the bytes of a minislot and the overhead of a burst.

ghost use Rattle.std.specs.Prelude.{◌≡◌};
ghost use Rattle.serde_json.specs.Find.{get};
ghost use Rattle.json_fields.specs.Fields.{profile_of, profile_at, or_profile, descriptors_of, uniform_of, bursts_of};

use super::field::{member, number_u32};
use super::tree::Tree;
use minislots::{Bursts, Descriptors, Profile};

// The burst descriptor that an object stands for: each member is there, and fits its type.
#[tactic(auto, unfolding(crate::specs::Fields::profile_of))]
fn profile_of<T: Tree>(value: &T) -> Option<Profile>
    ensures { result ≡ profile_of (T.shown value.now) }
{
    let (
        Some(preamble),
        Some(guard),
        Some(bits),
        Some(parity),
        Some(information),
        Some(shortened),
    ) = (
        number_u32(value, "preamble"),
        number_u32(value, "guard"),
        number_u32(value, "bits"),
        number_u32(value, "parity"),
        number_u32(value, "information"),
        number_u32(value, "shortened"),
    ) else {
        return None;
    };
    Some(Profile {
        preamble,
        guard,
        bits,
        parity,
        information,
        shortened,
    })
}

// The descriptor under this key.
#[tactic(auto, unfolding(crate::specs::Fields::profile_at))]
fn profile_at<T: Tree>(value: &T, key: &str) -> Option<Profile>
    ensures { result ≡ profile_at key.now (T.shown value.now) }
{
    profile_of(member(value, key)?)
}

// The descriptor under this key, and this one where the key is missing.
fn profile_or<T: Tree>(value: &T, key: &str, missing: Profile) -> Option<Profile>
    ensures { result ≡ or_profile missing (get key.now (T.shown value.now)) }
{
    match member(value, key) {
        None => Some(missing),
        Some(found) => profile_of(found),
    }
}

// The descriptors that an object stands for: those of unsolicited grants are those of long ones where they are missing.
#[tactic(auto, unfolding(crate::specs::Fields::descriptors_of))]
fn descriptors_of<T: Tree>(value: &T) -> Option<Descriptors>
    ensures { result ≡ descriptors_of (T.shown value.now) }
{
    let symbols = number_u32(value, "symbols")?;
    let short = profile_at(value, "short")?;
    let long = profile_at(value, "long")?;
    let unsolicited = profile_or(value, "unsolicited", long)?;
    Some(Descriptors {
        symbols,
        short,
        long,
        unsolicited,
    })
}

// Bursts in which each minislot carries the same bytes.
#[tactic(auto, unfolding(crate::specs::Fields::uniform_of))]
fn uniform_of<T: Tree>(value: &T) -> Option<Bursts>
    ensures { result ≡ uniform_of (T.shown value.now) }
{
    Some(Bursts::Uniform {
        bytes_per_slot: number_u32(value, "bytes_per_slot")?,
        overhead: number_u32(value, "overhead")?,
    })
}

/// The bursts of a configuration: the descriptors that it has, whatever else it has, or else the bytes of a minislot
/// and the overhead of a burst.
#[tactic(auto, unfolding(crate::specs::Fields::bursts_of))]
pub(crate) fn bursts_of<T: Tree>(value: &T) -> Option<Bursts>
    ensures { result ≡ bursts_of (T.shown value.now) }
{
    match member(value, "bursts") {
        None => uniform_of(value),
        Some(found) => Some(Bursts::Described(descriptors_of(found)?)),
    }
}
