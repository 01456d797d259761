// One hexadecimal digit: its value by its byte, and its byte by its value.
ghost use Rattle.std.specs.Prelude.{◌≡◌, ◌%◌};
ghost use Rattle.text_hex.specs.Digits.{value_of, digit_of};

use crate::tables::{DIGITS, VALUES};

pub fn value(byte: u8) -> u8
    ensures { result ≡ value_of byte }
{
    VALUES[byte as usize]
}

// The last digit of a number.
pub fn last_digit(number: u64) -> u8
    ensures { result ≡ digit_of (number % 16) }
{
    DIGITS[(number % 16) as usize]
}
