// The lines of one call of the index. A bad line is answered as it is read; a frame joins the commands, and a line of zeros keeps the place
// of its answer until the call has been made.
#![tactic(auto)]

ghost use Rattle.std.specs.Prelude.{◌≡◌, ◌+◌, ◌*◌, ◌≤◌, length, get_or};
ghost use Rattle.geometry.specs.Limits.{frame_size};
ghost use Rattle.text_hex.specs.Lines.{line_size};
ghost use Rattle.program_batches.specs.Batch.{PutsLine, ReadsOn, PutsAnswer, Completes, BatchRead, RoomForLine, kept_byte, kept_in};

use geometry::Record;
use protocol::Frame;
use text_hex::{LINE_SIZE, read_line, write_line};
use text_lines::{Gathered, Gathering, first_bytes, gather};

// The lines that have been read from a chunk, beside the output with their drafts and the commands of their frames. The caller lends both
// buffers, since no crate allocates, and goes on to use them, so they are no fields.
#[derive(Clone, Copy)]
pub struct Batch {
    // how many bytes were taken from the chunk's front
    pub taken: usize,
    // how many lines have ended
    pub lines: usize,
    // how many of them are frames
    pub frames: usize,
    // the line that hasn't ended yet
    pub line: Gathered,
}

// Reads the lines of a chunk, for as long as there is room for their answers and commands.
pub fn read_lines(
    chunk: &[u8],
    before: Gathered,
    keep: &mut [u8],
    out: &mut [u8],
    commands: &mut [u8],
) -> Batch
    ensures { BatchRead chunk.now before keep.old keep.new
        out.old out.new commands.old commands.new result }
{
    let mut batch = Batch {
        taken: 0,
        lines: 0,
        frames: 0,
        line: before,
    };
    // each turn takes as many bytes as its line has, so no `for` counts them; the place is the batch's, which counts from the chunk's front
    while batch.taken < chunk.len()
        && batch.lines < out.len() / LINE_SIZE
        && batch.frames < commands.len() / Record::FRAME_SIZE
    {
        batch = take_line(chunk, batch, keep, out, commands);
    }
    batch
}

// Takes bytes of a chunk in up to the end of a line, or all of them, and puts the line.
fn take_line(
    chunk: &[u8],
    batch: Batch,
    keep: &mut [u8],
    out: &mut [u8],
    commands: &mut [u8],
) -> Batch
    requires { RoomForLine chunk.now batch out.old commands.old }
    ensures { ReadsOn chunk.now batch keep.old keep.new
        out.old out.new commands.old commands.new result }
{
    match gather(&chunk[batch.taken..], false, batch.line, keep) {
        Gathering::Whole { taken, line } => {
            let front = first_bytes(keep, line.kept);
            let frames = put_line(front, out, batch.lines, commands, batch.frames);
            Batch {
                taken: batch.taken + taken,
                lines: batch.lines + 1,
                frames,
                line: Gathered::start(),
            }
        }
        Gathering::Unfinished { line } => Batch {
            taken: chunk.len(),
            line,
            ..batch
        },
    }
}

// Puts a line behind so many others, of which so many are frames: a bad line's answer, or a frame among the commands and a line of zeros
// that keeps the place of its answer. Answers how many frames there are then.
fn put_line(line: &[u8], out: &mut [u8], lines: usize, commands: &mut [u8], frames: usize) -> usize
    requires { (line_size * (lines + 1) ≤ length out.old) × (frame_size * (frames + 1) ≤ length commands.old) }
    ensures { PutsLine line.now lines frames out.old out.new
        commands.old commands.new result }
{
    let at = LINE_SIZE * lines;
    let Ok(frame) = read_line(line) else {
        write_line(out, at, BAD_LINE);
        return frames;
    };
    write_line(out, at, ZEROS);
    frame.encode(commands, Record::FRAME_SIZE * frames);
    frames + 1
}

// Puts the answers, in order, at the places that were kept for them.
pub fn complete(out: &mut [u8], lines: usize, answers: &[u8])
    requires { (line_size * lines ≤ length out.old) × (frame_size * kept_in lines out.old ≤ length answers.now) }
    ensures { Completes lines out.old out.new answers.now }
{
    let mut left = answers;
    // not over `chunks_exact_mut`, after whose writes std says nothing of the elements
    for line in 0..lines {
        left = put_answer(out, LINE_SIZE * line, left);
    }
}

// Puts the first of the answers that are left at a place, if that was kept for one. Answers those that are left then.
fn put_answer<'a>(out: &mut [u8], at: usize, left: &'a [u8]) -> &'a [u8]
    requires { (at + line_size ≤ length out.old) × (get_or out.old at 0 ≡ kept_byte → frame_size ≤ length left.now) }
    ensures { PutsAnswer at out.old out.new left.now result.now }
{
    if out[at] != KEPT {
        return left;
    }
    let (answer, rest) = left.split_at(Record::FRAME_SIZE);
    write_line(out, at, Frame::decode(answer, 0));
    rest
}

// what is written for a frame until its answer is known
const ZEROS: Frame = Frame {
    first: 0,
    second: 0,
    third: 0,
    fourth: 0,
    number: 0,
};

// what a bad line is answered
const BAD_LINE: Frame = Frame {
    first: 0xFF,
    ..ZEROS
};

// the byte that a place begins with while it is kept for an answer
const KEPT: u8 = b'0';
