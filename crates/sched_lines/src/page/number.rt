//! Numbers behind bytes that wait, two digits at a time.

ghost use Rattle.std.specs.Prelude.{◌≡◌, ◌+◌, ◌*◌, ◌/◌, ◌%◌, ◌<◌, ◌≤◌, ◌++◌, length, decimal};
ghost use Rattle.sched_lines.specs.Page.{pair};
ghost use Rattle.sched_lines.specs.Line.{number_text, numbers_text};
ghost use Rattle.sched_lines.specs.declared.page.TheConstants.{ROOM};

use super::Page;
use itoa::write_digits;

// The digits of each number below 100, two for each.
static PAIRS: [u8; 200] =
    *b"0001020304050607080910111213141516171819202122232425262728293031323334353637383940414243444546474849\
       5051525354555657585960616263646566676869707172737475767778798081828384858687888990919293949596979899";

impl Page {
    // Puts two digits behind the bytes.
    #[inline(always)]
    fn push_pair(&mut self, number: u64)
        requires below { number < 100 }
        requires room { length self.old + 2 ≤ ROOM }
        ensures { self.new ≡ self.old ++ pair number }
    {
        let from = number as usize * 2;
        self.push(&[PAIRS[from], PAIRS[from + 1]]);
    }

    // Puts the digits of a number below 100 behind the bytes.
    #[inline(always)]
    fn push_first(&mut self, number: u64)
        requires below { number < 100 }
        requires room { length self.old + 2 ≤ ROOM }
        ensures put { self.new ≡ self.old ++ decimal number }
        ensures short { length self.new ≤ length self.old + 2 }
    {
        if number < 10 {
            self.push(&[b'0' + number as u8]);
        } else {
            self.push_pair(number);
        }
    }

    // Puts the digits of a number below 10000 behind the bytes.
    #[inline(always)]
    fn push_few(&mut self, number: u64)
        requires below { number < 10000 }
        requires room { length self.old + 4 ≤ ROOM }
        ensures put { self.new ≡ self.old ++ decimal number }
        ensures short { length self.new ≤ length self.old + 4 }
    {
        if number < 100 {
            self.push_first(number);
        } else {
            self.push_first(number / 100);
            self.push_pair(number % 100);
        }
    }

    // Puts four digits behind the bytes.
    #[inline(always)]
    fn push_four(&mut self, number: u64)
        requires below { number < 10000 }
        requires room { length self.old + 4 ≤ ROOM }
        ensures put { self.new ≡ self.old ++ (pair (number / 100) ++ pair (number % 100)) }
        ensures short { length self.new ≡ length self.old + 4 }
    {
        self.push_pair(number / 100);
        self.push_pair(number % 100);
    }

    // Puts the digits of a number of any length behind the bytes.
    #[inline(never)]
    fn push_many(&mut self, number: u64)
        requires { length self.old + 20 ≤ ROOM }
        ensures put { self.new ≡ self.old ++ decimal number }
        ensures short { length self.new ≤ length self.old + 20 }
    {
        let mut digits = [0u8; 20];
        let start = write_digits(number, &mut digits, 20);
        self.push(&digits[start..]);
    }

    /// Puts a space and a number in decimal behind the bytes. Most have at most eight digits: these need no loop.
    #[inline]
    pub(crate) fn push_number(&mut self, number: u64)
        requires { length self.old + 21 ≤ ROOM }
        ensures put { self.new ≡ self.old ++ number_text number }
        ensures short { length self.new ≤ length self.old + 21 }
    {
        self.push(b" ");
        if number < 10_000 {
            self.push_few(number);
        } else if number < 100_000_000 {
            self.push_few(number / 10_000);
            self.push_four(number % 10_000);
        } else {
            self.push_many(number);
        }
    }

    /// Puts numbers behind the bytes, each after a space.
    pub(crate) fn push_numbers(&mut self, numbers: &[u16])
        requires { length self.old + 21 * length numbers.now ≤ ROOM }
        ensures put { self.new ≡ self.old ++ numbers_text numbers.now }
        ensures short { length self.new ≤ length self.old + 21 * length numbers.now }
    {
        for number in numbers {
            self.push_number(u64::from(*number));
        }
    }
}
