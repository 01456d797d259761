// The second program: reads a Fortran file from standard input and writes the insert frame of each line's mark, one a line.
// The crate `program_insertions` has the work, and `program_streams` reads and writes.
#![tactic(auto)]

ghost use Rattle.std.specs.Prelude.{OnOk, []};
ghost use Rattle.text_hex.specs.Lines.{line_size};
ghost use Rattle.program_streams.specs.Passing.{WritesAll};
ghost use Rattle.program_insertions.specs.Frames.{frames_of_file};
ghost use Rattle.program_insertions.specs.Stream.{FileFollows};

use geometry::Record;
use program_insertions::Progress;
use program_streams::{Failure, Filter, Taken, exit_code, pass};
use std::io::{Read, Write};
use std::process::ExitCode;

// A Fortran file that is being read.
#[derive(Drop)]
struct FortranFile {
    progress: Progress,
    // the first columns of its unfinished line
    keep: [u8; Record::LAST_COLUMN],
}

impl Filter for FortranFile {
    ghost room = { line_size };

    ghost follows = { λ input written file. FileFollows input written file.progress file.keep [] 0 };

    ghost filtered = { frames_of_file };

    fn take_in(&mut self, chunk: &[u8], out: &mut [u8]) -> Taken {
        program_insertions::take_in(chunk, &mut self.progress, &mut self.keep, out)
    }

    fn finish(&mut self, out: &mut [u8]) -> usize {
        program_insertions::finish(self.progress, &mut self.keep, out)
    }
}

// Writes the frames of a file, to its end.
fn write_frames<R: Read, W: Write>(input: &mut R, output: &mut W) -> Result<(), Failure>
    ensures { OnOk result (WritesAll frames_of_file (R.remaining input.old) (W.contents output.old) (W.contents output.new)) }
{
    let mut file = FortranFile {
        progress: Progress::start(),
        keep: [0; Record::LAST_COLUMN],
    };
    pass(input, output, &mut file, &mut [0; LARGE], &mut [0; LARGE])
}

fn main(rt: HostRuntime) -> ExitCode {
    let outcome = write_frames(&mut rt.stdin(), &mut rt.stdout());
    exit_code(&rt, "marks", outcome)
}

// bytes that are read at once, and bytes of frames that are written at once
const LARGE: usize = 65536;
