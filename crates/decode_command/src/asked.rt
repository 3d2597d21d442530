//! What of a line of an input is decoded.

ghost use Rattle.std.specs.Prelude.{◌≡◌, MatchOption, None, Some};
ghost use Rattle.decode_command.specs.Asked.{trimmed, ends_word, begins_with, is_other_answer, is_passed, behind_map};
ghost use Rattle.decode_command.specs.Asked.{asked_of};

// A text without the white space before and behind it.
fn trimmed(text: &[u8]) -> &[u8]
    ensures { result.now ≡ trimmed text.now }
{
    text.trim_ascii()
}

// Whether words end before these bytes.
fn ends_word(rest: &[u8]) -> bool
    ensures { result ≡ ends_word rest.now }
{
    rest.is_empty() || rest[0] == b' '
}

// Whether a text is these words, or begins with them and a space.
fn begins_with(text: &[u8], words: &[u8]) -> bool
    ensures { result ≡ begins_with text.now words.now }
{
    text.starts_with(words) && ends_word(&text[words.len()..])
}

// Whether a text is a line that `run` or `live` prints for anything but a MAP.
#[tactic(auto, unfolding(crate::specs::Asked::is_other_answer))]
fn is_other_answer(text: &[u8]) -> bool
    ensures { result ≡ is_other_answer text.now }
{
    begins_with(text, b"admitted")
        || begins_with(text, b"changed")
        || begins_with(text, b"removed")
        || begins_with(text, b"taken")
        || begins_with(text, b"noted")
        || begins_with(text, b"reserved")
        || begins_with(text, b"skipped")
        || begins_with(text, b"flow")
        || begins_with(text, b"refused")
        || begins_with(text, b"history full")
        || begins_with(text, b"out of memory")
        || begins_with(text, b"bad line")
}

// Whether nothing of a text is decoded: it is empty, or another answer than a MAP.
fn is_passed(text: &[u8]) -> bool
    ensures { result ≡ is_passed text.now }
{
    text.is_empty() || is_other_answer(text)
}

// What stands behind the word `map` of a text, or else the text.
fn behind_map(text: &[u8]) -> &[u8]
    ensures { result.now ≡ behind_map text.now }
{
    if begins_with(text, b"map") {
        return trimmed(&text[3..]);
    }
    text
}

// What is decoded of a line, without the white space around it: what stands behind the word `map`, or else all of it,
// but nothing of an empty line or another answer.
pub(crate) fn asked_of(line: &[u8]) -> Option<&[u8]>
    ensures { MatchOption result (asked_of line.now ≡ None) (λ text. asked_of line.now ≡ Some text.now) }
{
    let text = trimmed(line);
    if is_passed(text) {
        return None;
    }
    Some(behind_map(text))
}
