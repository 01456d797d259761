// Words at the start of a statement, which is read without its blanks and without regard to case.
ghost use Rattle.std.specs.Prelude.{◌≡◌};
ghost use Rattle.text_fixed_form.specs.Mark.{begins, text, upper_case};

use crate::columns::BLANK;

// Whether the columns `line`, read so, begin with `word`, whose letters are upper case.
pub fn begins(word: &[u8], line: &[u8]) -> bool
    ensures { result ≡ begins word.now (text line.now) }
{
    let mut left = word;
    for &byte in line {
        if byte != BLANK {
            let [letter, rest @ ..] = left else {
                return true;
            };
            if upper_case(byte) != *letter {
                return false;
            }
            left = rest;
        }
    }
    left.is_empty()
}

// A small letter as its capital, any other byte as it is.
fn upper_case(byte: u8) -> u8
    ensures { result ≡ upper_case byte }
{
    byte.to_ascii_uppercase()
}
