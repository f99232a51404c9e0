// Numbers.
ghost use Rattle.std.specs.Prelude.{◌≡◌, ◌≤◌, ◌<◌, ◌+◌, ◌*◌, [], ◌∷◌, ◌++◌, length, Some, decimal};
ghost use Rattle.arrayvec.specs.ArrayString.{array_string_len};

use crate::text::{LINE_ROOM, LineText};
use std::fmt;

// A number below 2^64 has at most so many digits.
pub const MAX_DIGITS: usize = 20;

fn push_digit(text: &mut LineText, digit: u8)
    requires digit { digit < 10 }
    requires room { array_string_len text.old < LINE_ROOM }
    ensures { text.new.bytes ≡ text.old.bytes ++ (48 + digit) ∷ [] }
{
    text.push((b'0' + digit) as char);
}

// A number, in decimal.
#[derive(Clone, Copy)]
pub struct Decimal(pub u64);

impl Decimal {
    // Appends the digits. They are written leading digit first: the tenth's digits, and then the last one.
    pub fn push_to(self, text: &mut LineText)
        requires { array_string_len text.old + MAX_DIGITS ≤ LINE_ROOM }
        ensures bytes { text.new.bytes ≡ text.old.bytes ++ decimal self.0 }
        ensures len { array_string_len text.new ≤ array_string_len text.old + MAX_DIGITS }
    {
        let n = self.0;
        let is_digit = n < 10;
        if is_digit {
            push_digit(text, n as u8);
            return;
        }
        Decimal(n / 10).push_to(text);
        push_digit(text, (n % 10) as u8);
    }
}

impl fmt::Display for Decimal {
    ghost output = { λ n. Some (decimal n.0) };

    fn fmt<W: fmt::Write>(&self, f: &mut fmt::Formatter<W>) -> fmt::Result {
        let mut text = LineText::new();
        self.push_to(&mut text);
        f.write_str(text.as_str())
    }
}

// Appends a number, with what stands before and after it.
pub fn push_number(text: &mut LineText, before: &str, number: u64, after: &str)
    requires { array_string_len text.old + length before.now + MAX_DIGITS + length after.now ≤ LINE_ROOM }
    ensures bytes { text.new.bytes ≡ text.old.bytes ++ before.now ++ decimal number ++ after.now }
    ensures len { array_string_len text.new ≤ array_string_len text.old + length before.now + MAX_DIGITS + length after.now }
{
    text.push_str(before);
    Decimal(number).push_to(text);
    text.push_str(after);
}

// Appends two numbers, with what stands before, between and after them.
pub fn push_numbers(
    text: &mut LineText,
    before: &str,
    first: u64,
    between: &str,
    second: u64,
    after: &str,
)
    requires { array_string_len text.old + length before.now + length between.now + length after.now + 2 * MAX_DIGITS ≤ LINE_ROOM }
    ensures bytes { text.new.bytes ≡ text.old.bytes ++ before.now ++ decimal first ++ between.now ++ decimal second ++ after.now }
    ensures len { array_string_len text.new ≤ array_string_len text.old + length before.now + length between.now + length after.now + 2 * MAX_DIGITS }
{
    push_number(text, before, first, between);
    Decimal(second).push_to(text);
    text.push_str(after);
}
