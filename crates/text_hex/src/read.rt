// Reads a line of sixteen digits.
ghost use Rattle.std.specs.Prelude.{◌≡◌, true, ◌+◌, ◌≤◌, length, take, drop};
ghost use Rattle.text_hex.specs.Digits.{all_digits, number_of_digits};
ghost use Rattle.text_hex.specs.Lines.{frame_of};

use crate::digit::value;
use crate::write::LINE_DIGITS;
use protocol::Frame;

// A line that is no frame.
#[derive(Clone, Copy, PartialEq, Eq, Debug)]
pub struct Bad;

// The frame that a line spells, if it is sixteen digits.
pub fn read_line(line: &[u8]) -> Result<Frame, Bad>
    ensures { result ≡ frame_of line.now }
{
    if line.len() != LINE_DIGITS || !are_digits(line) {
        return Err(Bad);
    }
    Ok(Frame {
        first: byte_at(line, 0),
        second: byte_at(line, 2),
        third: byte_at(line, 4),
        fourth: byte_at(line, 6),
        number: number(&line[8..LINE_DIGITS]),
    })
}

fn are_digits(line: &[u8]) -> bool
    ensures { result ≡ all_digits line.now }
{
    line.iter().all(|byte| value(*byte) < 16)
}

// The byte that the two digits at `at` stand for.
fn byte_at(line: &[u8], at: usize) -> u8
    requires { (at + 2 ≤ length line.now) × (all_digits line.now ≡ true) }
    ensures { result ≡ number_of_digits (take 2 (drop at line.now)) }
{
    number(&line[at..at + 2]) as u8
}

// The number that up to eight digits stand for.
fn number(digits: &[u8]) -> u32
    requires { (length digits.now ≤ 8) × (all_digits digits.now ≡ true) }
    ensures { result ≡ number_of_digits digits.now }
{
    let mut number = 0;
    for &digit in digits {
        number = number * 16 + u32::from(value(digit));
    }
    number
}
