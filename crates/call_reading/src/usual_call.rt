//! The commonest calls, where their members stand in the order in which they are written: that of their keys.

ghost use Rattle.std.specs.Prelude.{◌≡◌, ◌∷◌, ℕ, List, codes, IsTrue, IfSome};
ghost use Rattle.json.specs.Token.{key, string};
ghost use Rattle.json.specs.Print.{escape};
ghost use Rattle.serde_json.specs.Data.{number, unsigned};
ghost use Rattle.byte_tokens.specs.Spelled.{spelled_key, spelled_text, spelled_run};
ghost use Rattle.call_reading.specs.declared.field.Field.{Field};
ghost use Rattle.call_reading.specs.Field.{key_of, NotesMember};
ghost use Rattle.call_reading.specs.Seen.{Seen, seen_with};
ghost use Rattle.call_reading.specs.Made.{MakesCall};

use super::field::Field;
use super::found::{Found, ask, build, heard, remove, status};
use byte_tokens::Quick;
use sched_calls::Call;

// The number of the field whose key is spelled so, if it is next.
#[inline(always)]
fn number_under(reader: &mut Quick<'_>, spelled: &str, field: Field) -> Option<u64>
    requires { spelled.now ≡ spelled_key (key_of field) }
    ensures { IfSome result (λ n. (depth : ℕ) (s : Seen) → NotesMember depth reader.old reader.new s
        (seen_with (key_of field) (number (unsigned n)) s)) }
{
    if !reader.take_spelled_key(spelled) {
        return None;
    }
    let number = reader.take_short_number()?;
    Some(number)
}

// The number of minislots of the field whose key is spelled so, if it is next.
#[inline(always)]
fn minislots_under(reader: &mut Quick<'_>, spelled: &str, field: Field) -> Option<u64>
    requires { spelled.now ≡ spelled_key (key_of field) }
    ensures { IfSome result (λ n. (depth : ℕ) (s : Seen) → NotesMember depth reader.old reader.new s
        (seen_with (key_of field) (number (unsigned n)) s)) }
{
    if !reader.take_spelled_key(spelled) {
        return None;
    }
    let number = reader.take_wide_number()?;
    Some(number)
}

// The same of the name of a call under its key, and the key behind it, token by token. Compiled apart, since mostly
// nothing stands between them.
#[inline(never)]
fn take_named_apart(reader: &mut Quick<'_>, name: &str, behind: &str) -> bool
    ensures { IsTrue result → (content : List ℕ) → (field : Field) → escape content ≡ content
        → name.now ≡ spelled_text content → behind.now ≡ spelled_key (key_of field)
        → reader.old ≡ key (codes "call") ∷ string content ∷ key (key_of field) ∷ reader.new }
{
    if !reader.take_spelled_key("\"call\":") {
        return false;
    }
    if !reader.take_spelled_text(name) {
        return false;
    }
    if !reader.take_spelled_key(behind) {
        return false;
    }
    true
}

// Takes the name of a call under its key, and the key behind it, if they are next and spelled so: together as `run`
// where nothing stands between them.
#[inline(always)]
fn take_named(reader: &mut Quick<'_>, run: &str, name: &str, behind: &str) -> bool
    ensures { IsTrue result → (content : List ℕ) → (field : Field) → escape content ≡ content
        → run.now ≡ spelled_run (codes "call") content (key_of field)
        → name.now ≡ spelled_text content → behind.now ≡ spelled_key (key_of field)
        → reader.old ≡ key (codes "call") ∷ string content ∷ key (key_of field) ∷ reader.new }
{
    if reader.take_spelled_run(run) {
        return true;
    }
    take_named_apart(reader, name, behind)
}

// A question for a flow's bytes.
fn usual_status(reader: &mut Quick<'_>) -> Option<Call>
    ensures { IfSome result (λ call. (depth : ℕ) → MakesCall depth reader.old reader.new call) }
{
    if !take_named(
        reader,
        "\"call\":\"status\",\"sid\":",
        "\"status\"",
        "\"sid\":",
    ) {
        return None;
    }
    let sid = reader.take_short_number()?;
    if !reader.take_end_object() {
        return None;
    }
    let mut found = Found::nothing();
    found.sid = Some(sid);
    let call = status(&found)?;
    Some(call)
}

// A removal.
fn usual_remove(reader: &mut Quick<'_>) -> Option<Call>
    ensures { IfSome result (λ call. (depth : ℕ) → MakesCall depth reader.old reader.new call) }
{
    if !take_named(
        reader,
        "\"call\":\"remove\",\"sid\":",
        "\"remove\"",
        "\"sid\":",
    ) {
        return None;
    }
    let sid = reader.take_short_number()?;
    if !reader.take_end_object() {
        return None;
    }
    let mut found = Found::nothing();
    found.sid = Some(sid);
    let call = remove(&found)?;
    Some(call)
}

// A receiver's progress.
fn usual_heard(reader: &mut Quick<'_>) -> Option<Call>
    ensures { IfSome result (λ call. (depth : ℕ) → MakesCall depth reader.old reader.new call) }
{
    if !take_named(
        reader,
        "\"call\":\"heard\",\"receiver\":",
        "\"heard\"",
        "\"receiver\":",
    ) {
        return None;
    }
    let receiver = reader.take_short_number()?;
    let upto = minislots_under(reader, "\"upto\":", Field::Upto)?;
    if !reader.take_end_object() {
        return None;
    }
    let mut found = Found::nothing();
    found.receiver = Some(receiver);
    found.upto = Some(upto);
    let call = heard(&found)?;
    Some(call)
}

// A build.
fn usual_build(reader: &mut Quick<'_>) -> Option<Call>
    ensures { IfSome result (λ call. (depth : ℕ) → MakesCall depth reader.old reader.new call) }
{
    if !take_named(
        reader,
        "\"call\":\"build\",\"now\":",
        "\"build\"",
        "\"now\":",
    ) {
        return None;
    }
    let now = reader.take_wide_number()?;
    if !reader.take_end_object() {
        return None;
    }
    let mut found = Found::nothing();
    found.time = Some(now);
    let call = build(&found)?;
    Some(call)
}

// A request.
fn usual_ask(reader: &mut Quick<'_>) -> Option<Call>
    ensures { IfSome result (λ call. (depth : ℕ) → MakesCall depth reader.old reader.new call) }
{
    let bytes = number_under(reader, "\"bytes\":", Field::Bytes)?;
    if !take_named(
        reader,
        "\"call\":\"ask\",\"heard\":",
        "\"ask\"",
        "\"heard\":",
    ) {
        return None;
    }
    let at = reader.take_wide_number()?;
    let receiver = number_under(reader, "\"receiver\":", Field::Receiver)?;
    let sid = number_under(reader, "\"sid\":", Field::Sid)?;
    if !reader.take_end_object() {
        return None;
    }
    let mut found = Found::nothing();
    found.bytes = Some(bytes);
    found.heard = Some(at);
    found.receiver = Some(receiver);
    found.sid = Some(sid);
    let call = ask(&found)?;
    Some(call)
}

// The first letter of the name of a call, where its key is next, with a space behind it or none.
#[inline(always)]
fn name_letter(reader: &Quick<'_>) -> u8 {
    let letter = reader.byte_behind(8);
    if letter == b'"' {
        return reader.byte_behind(9);
    }
    letter
}

// A call whose name stands first.
fn usual_named(reader: &mut Quick<'_>) -> Option<Call>
    ensures { IfSome result (λ call. (depth : ℕ) → MakesCall depth reader.old reader.new call) }
{
    match name_letter(reader) {
        b'b' => usual_build(reader),
        b'h' => usual_heard(reader),
        b'r' => usual_remove(reader),
        b's' => usual_status(reader),
        _ => None,
    }
}

/// The call of these whose brace was taken, and the brace that closes it. There is none where the call is another one,
/// or has its members in another order.
pub(crate) fn usual_call(reader: &mut Quick<'_>) -> Option<Call>
    ensures { IfSome result (λ call. (depth : ℕ) → MakesCall depth reader.old reader.new call) }
{
    match reader.letter() {
        b'b' => usual_ask(reader),
        b'c' => usual_named(reader),
        _ => None,
    }
}
