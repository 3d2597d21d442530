//! Whole numbers that may be none, and lists of minislots, as members of JSON objects.

ghost use Rattle.std.specs.Prelude.{◌≡◌, ◌<◌, ◌^◌, ◌++◌, ◌∷◌, OnOk};
ghost use Rattle.std.specs.List.{AllByRecursion};
ghost use Rattle.json.specs.Token.{key};
ghost use Rattle.history_writing.specs.Json.{count, counts};
ghost use Rattle.history_writing.specs.Tokens.{tokens_of};
ghost use Rattle.state_text.specs.Fits.{MaybeFits};
ghost use Rattle.state_text.specs.StateText.{flag, maybe_data};

use json::Writer;
use std::alloc::AllocError;

// 1 where something is so, and else 0.
pub(crate) fn flag(is: bool) -> u64
    ensures { result ≡ flag is }
{
    if is { 1 } else { 0 }
}

// Writes a whole number under this title, or null where there is none.
pub(crate) fn put_maybe(
    out: &mut Writer,
    title: &str,
    number: Option<u64>,
) -> Result<(), AllocError>
    ensures ok { OnOk result
        (out.new.tokens ≡ out.old.tokens ++ key title.now ∷ tokens_of (maybe_data number)) }
    ensures before { out.new.before ≡ out.old.before }
    ensures fits { MaybeFits number }
{
    out.key(title)?;
    match number {
        Some(number) => out.u64(number),
        None => out.null(),
    }
}

// Writes an array of minislots under this title.
pub(crate) fn put_slots(out: &mut Writer, title: &str, slots: &[u64]) -> Result<(), AllocError>
    ensures ok { OnOk result
        (out.new.tokens ≡ out.old.tokens ++ key title.now ∷ tokens_of (counts slots.now)) }
    ensures before { out.new.before ≡ out.old.before }
    ensures fits { AllByRecursion (λ slot. slot < 2 ^ 64) slots.now }
{
    out.key(title)?;
    out.begin_array()?;
    for slot in slots {
        out.u64(*slot)?;
    }
    out.end_array()
}
