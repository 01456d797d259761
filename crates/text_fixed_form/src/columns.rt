// Columns of a line: its bytes, counted from 1. A column past the line's end is blank.
ghost use Rattle.std.specs.Prelude.{◌≡◌, ◌≤◌, drop};
ghost use Rattle.text_fixed_form.specs.Mark.{column, all_blank, is_outside, any_outside};

// what a missing column is read as
pub const BLANK: u8 = b' ';

// The columns after the first `count`.
pub fn columns_after(line: &[u8], count: usize) -> &[u8]
    ensures { result.now ≡ drop count line.now }
{
    line.get(count..).unwrap_or(&[])
}

// The byte in the column `number`.
pub fn column(line: &[u8], number: usize) -> u8
    requires { 1 ≤ number }
    ensures { result ≡ column number line.now }
{
    line.get(number - 1).copied().unwrap_or(BLANK)
}

// Whether every column is blank. With `all` blank lines took up to 1.7 times as long: six instructions a column, not five.
pub fn all_blank(line: &[u8]) -> bool
    ensures { result ≡ all_blank line.now }
{
    for byte in line {
        if *byte != BLANK {
            return false;
        }
    }
    true
}

// Whether a column has a byte that no line may have. Few lines do, so this is no `any`, which stops at one:
// then the compiler takes many columns at a time.
pub fn any_outside(line: &[u8]) -> bool
    ensures { result ≡ any_outside line.now }
{
    line.iter()
        .fold(false, |found, byte| found | is_outside(*byte))
}

// Whether no line may have `byte`: it is neither a blank nor a printed character of ASCII.
fn is_outside(byte: u8) -> bool
    ensures { result ≡ is_outside byte }
{
    !matches!(byte, b' '..=b'~')
}
