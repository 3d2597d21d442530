//! Fields of a JSON object.

ghost use Rattle.std.specs.Prelude.{◌≡◌, option_map};
ghost use Rattle.serde_json.specs.Find.{get};
ghost use Rattle.json_fields.specs.Fields.{number_at, u8_at, u16_at, u32_at, u64_at, u8_or, u32_or, text_at};

use super::tree::Tree;

/// The value under this key, where there is one.
pub fn member<'v, T: Tree>(value: &'v T, key: &str) -> Option<&'v T>
    ensures { option_map (λ v. T.shown v.now) result ≡ get key.now (T.shown value.now) }
{
    value.member(key)
}

/// The text under this key.
#[tactic(auto, unfolding(crate::specs::Fields::text_at))]
pub fn text<'v, T: Tree>(value: &'v T, key: &str) -> Option<&'v str>
    ensures { option_map (λ s. s.now) result ≡ text_at key.now (T.shown value.now) }
{
    member(value, key)?.text()
}

/// The number under this key. One below 0, or one that is written with a fraction or an exponent,
/// is none.
#[tactic(auto, unfolding(crate::specs::Fields::number_at))]
fn number<T: Tree>(value: &T, key: &str) -> Option<u64>
    ensures { result ≡ number_at key.now (T.shown value.now) }
{
    member(value, key)?.whole()
}

/// The number under this key, where it fits.
#[tactic(auto, unfolding(crate::specs::Fields::u8_at))]
pub fn number_u8<T: Tree>(value: &T, key: &str) -> Option<u8>
    ensures { result ≡ u8_at key.now (T.shown value.now) }
{
    u8::try_from(number(value, key)?).ok()
}

/// The number under this key, where it fits, and this one where the key is missing.
#[tactic(auto, unfolding(crate::specs::Fields::u8_or))]
pub fn number_u8_or<T: Tree>(value: &T, key: &str, missing: u8) -> Option<u8>
    ensures { result ≡ u8_or missing key.now (T.shown value.now) }
{
    match member(value, key) {
        None => Some(missing),
        Some(_) => number_u8(value, key),
    }
}

/// The number under this key, where it fits.
#[tactic(auto, unfolding(crate::specs::Fields::u16_at))]
pub fn number_u16<T: Tree>(value: &T, key: &str) -> Option<u16>
    ensures { result ≡ u16_at key.now (T.shown value.now) }
{
    u16::try_from(number(value, key)?).ok()
}

/// The number under this key, where it fits.
#[tactic(auto, unfolding(crate::specs::Fields::u32_at))]
pub fn number_u32<T: Tree>(value: &T, key: &str) -> Option<u32>
    ensures { result ≡ u32_at key.now (T.shown value.now) }
{
    u32::try_from(number(value, key)?).ok()
}

/// The number under this key, where it fits, and this one where the key is missing.
#[tactic(auto, unfolding(crate::specs::Fields::u32_or))]
pub fn number_u32_or<T: Tree>(value: &T, key: &str, missing: u32) -> Option<u32>
    ensures { result ≡ u32_or missing key.now (T.shown value.now) }
{
    if member(value, key).is_none() {
        return Some(missing);
    }
    number_u32(value, key)
}

/// The number under this key.
#[tactic(auto, unfolding(crate::specs::Fields::u64_at))]
pub fn number_u64<T: Tree>(value: &T, key: &str) -> Option<u64>
    ensures { result ≡ u64_at key.now (T.shown value.now) }
{
    number(value, key)
}
