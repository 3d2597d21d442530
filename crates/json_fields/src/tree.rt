//! JSON values that can be looked into, however they are kept.

ghost use Rattle.std.specs.Prelude.{◌≡◌, map, option_map, option_and_then};
ghost use Rattle.serde_json.specs.Data.{Data};
ghost use Rattle.serde_json.specs.Find.{get, as_str, as_array, as_number, as_u64};
ghost use Rattle.serde_json.specs.View.{view, items_of};

use serde_json::Value;

/// A JSON value that can be looked into.
pub trait Tree: Sized {
    ghost shown: { Self → Data };

    /// The value under this key, where there is one.
    fn member(&self, key: &str) -> Option<&Self>
        ensures { option_map (λ v. shown v.now) result ≡ get key.now (shown self.now) };

    /// The text, where the value is one.
    fn text(&self) -> Option<&str>
        ensures { option_map (λ s. s.now) result ≡ as_str (shown self.now) };

    /// The whole number, where the value is one that is not below 0 and fits.
    fn whole(&self) -> Option<u64>
        ensures { result ≡ option_and_then as_u64 (as_number (shown self.now)) };

    /// The items, where the value is an array.
    fn items(&self) -> Option<&[Self]>
        ensures { option_map (λ vs. items_of (map shown vs.now)) result
            ≡ as_array (shown self.now) };
}

impl Tree for Value {
    ghost shown = { view };

    fn member(&self, key: &str) -> Option<&Value> {
        self.get(key)
    }

    fn text(&self) -> Option<&str> {
        self.as_str()
    }

    fn whole(&self) -> Option<u64> {
        self.as_u64()
    }

    fn items(&self) -> Option<&[Value]> {
        Some(self.as_array()?.as_slice())
    }
}
