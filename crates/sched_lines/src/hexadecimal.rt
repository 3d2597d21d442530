//! Hexadecimal, as lines and histories have it.

ghost use Rattle.std.specs.Prelude.{◌≡◌, ◌*◌, ◌<◌, length, slice_index};
ghost use Rattle.hex.specs.Hex.{encode_lower, lower_digits};

// The lower-case digit of a number below 16. It is computed, so that many are at once: the compiler turns a loop of
// computations into one of vectors, and not one of looks into a table.
#[inline(always)]
#[tactic(auto, using(crate::proofs::Digits::digit_below, crate::proofs::Digits::digit_above))]
fn digit(number: u8) -> u8
    requires { number < 16 }
    ensures { result ≡ slice_index lower_digits number }
{
    let letter = if number < 10 { 0 } else { b'a' - 10 - b'0' };
    number + b'0' + letter
}

/// Writes the lower-case hexadecimal of bytes: two digits for each, that of its high four bits first.
pub fn write_hex(bytes: &[u8], text: &mut [u8])
    requires { length text.old ≡ 2 * length bytes.now }
    ensures { text.new ≡ encode_lower bytes.now }
{
    for i in 0..bytes.len() {
        text[2 * i] = digit(bytes[i] / 16);
        text[2 * i + 1] = digit(bytes[i] % 16);
    }
}
