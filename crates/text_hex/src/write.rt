// Writes a frame or an answer as a line of sixteen digits.
ghost use Rattle.std.specs.Prelude.{◌≡◌, ◌+◌, ◌≤◌, length};
ghost use Rattle.std.proofs.Math.Seq.{paste};
ghost use Rattle.text_hex.specs.Digits.{digits_of};
ghost use Rattle.text_hex.specs.Lines.{line_of, line_digits, line_size};

use crate::digit::last_digit;
use geometry::Record;
use protocol::Frame;

pub const LINE_DIGITS: usize = 2 * Record::FRAME_SIZE;

// Bytes of a written line: its digits and a line feed.
pub const LINE_SIZE: usize = LINE_DIGITS + 1;

// Puts a frame into out as a line, from `at` on.
pub fn write_line(out: &mut [u8], at: usize, frame: Frame)
    requires { at + line_size ≤ length out.old }
    ensures { out.new ≡ paste out.old at (line_of frame) line_size }
{
    let bytes = u32::from_be_bytes([frame.first, frame.second, frame.third, frame.fourth]);
    write_digits(out, at, (u64::from(bytes) << 32) + u64::from(frame.number));
    out[at + LINE_DIGITS] = b'\n';
}

// Puts the sixteen digits of a number into out, from `at` on; the last is put first.
fn write_digits(out: &mut [u8], at: usize, number: u64)
    requires { at + line_digits ≤ length out.old }
    ensures { out.new ≡ paste out.old at (digits_of line_digits number) line_digits }
{
    let mut rest = number;
    for left in (0..LINE_DIGITS).rev() {
        out[at + left] = last_digit(rest);
        rest /= 16;
    }
}
