// The insert frames of a Fortran file that comes in chunks: one line of digits for each line of the file, its mark into name 0.
#![tactic(auto)]

ghost use Rattle.std.specs.Prelude.{◌≡◌, ◌+◌, ◌≤◌, min, length};
ghost use Rattle.geometry.specs.Limits.{most_marks};
ghost use Rattle.text_hex.specs.Lines.{line_size};
ghost use Rattle.program_insertions.specs.Stream.{FileStarts, PutsFrame, GoesOn, FileEnds};

use geometry::Record;
use program_streams::Taken;
use protocol::{Command, Frame, Operation};
use text_fixed_form::mark;
use text_hex::{LINE_SIZE, write_line};
use text_lines::{Gathered, Gathering, first_bytes, gather};

// How far a file has been read, beside the buffer that holds the first columns of its unfinished line.
#[derive(Clone, Copy)]
pub struct Progress {
    // the unfinished line
    pub line: Gathered,
    // how many lines have been answered with a frame
    pub lines: usize,
}

impl Progress {
    // Nothing has been read yet.
    pub fn start() -> Progress
        ensures { FileStarts result }
    {
        Progress {
            line: Gathered::start(),
            lines: 0,
        }
    }
}

// Takes a chunk's bytes in from the front and puts the frames of the lines that end among them into out, for as long as out has room
// for one more.
pub fn take_in(chunk: &[u8], progress: &mut Progress, keep: &mut [u8], out: &mut [u8]) -> Taken
    ensures { GoesOn chunk.now progress.old progress.new keep.old keep.new out.old out.new 0 result }
{
    let mut rest = chunk;
    let mut filled = 0;
    while !rest.is_empty() && out.len() - filled >= LINE_SIZE {
        let step = take_line(rest, progress, keep, &mut out[filled..]);
        rest = &rest[step.taken..];
        filled += step.filled;
    }
    Taken {
        taken: chunk.len() - rest.len(),
        filled,
    }
}

// Takes bytes in up to the end of a line, or all of them, and puts the line's frame at the front of out.
fn take_line(bytes: &[u8], progress: &mut Progress, keep: &mut [u8], out: &mut [u8]) -> Taken
    requires { line_size ≤ length out.old }
    ensures { GoesOn bytes.now progress.old progress.new keep.old keep.new out.old out.new 0 result }
{
    let before = *progress;
    match gather(bytes, true, before.line, keep) {
        Gathering::Whole { taken, line } => {
            let front = first_bytes(keep, line.kept);
            let filled = put_frame(front, before.lines, out);
            *progress = Progress {
                line: Gathered::start(),
                lines: one_more(before.lines),
            };
            Taken { taken, filled }
        }
        Gathering::Unfinished { line } => {
            progress.line = line;
            Taken {
                taken: bytes.len(),
                filled: 0,
            }
        }
    }
}

// The file is over: puts the frame of its last line, if that has no line feed but a byte, at the front of out.
pub fn finish(before: Progress, keep: &mut [u8], out: &mut [u8]) -> usize
    requires { line_size ≤ length out.old }
    ensures { FileEnds before keep.old keep.new out.old out.new result }
{
    let line = text_lines::finish(before.line, keep);
    if line.length == 0 {
        return 0;
    }
    put_frame(first_bytes(keep, line.kept), before.lines, out)
}

// Puts the frame of a line after so many others at the front of out, and answers how many bytes it has. Lines past the limit have none.
fn put_frame(line: &[u8], lines: usize, out: &mut [u8]) -> usize
    requires { line_size ≤ length out.old }
    ensures { PutsFrame line.now lines out.old out.new 0 result }
{
    if lines < Record::MOST_MARKS {
        let insertion = Command {
            code: Operation::Insert as u8,
            name: FILE,
            symbol: mark(line),
            fourth: 0,
            number: (lines + 1) as u32,
        };
        write_line(out, 0, Frame::from(insertion));
        return LINE_SIZE;
    }
    0
}

// One line more, up to the limit.
fn one_more(lines: usize) -> usize
    ensures { result ≡ min most_marks (lines + 1) }
{
    lines.saturating_add(1).min(Record::MOST_MARKS)
}

// the name that the marks go to
const FILE: u8 = 0;
