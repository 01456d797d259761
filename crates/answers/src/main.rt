// The first program: reads frames from standard input, one as hexadecimal on each line, and writes an answer line for each.
// The crate `program_sessions` has the work, and `program_streams` reads and writes.
#![tactic(auto)]

ghost use Rattle.std.specs.Prelude.{OnOk};
ghost use Rattle.text_hex.specs.Lines.{line_size};
ghost use Rattle.program_streams.specs.Passing.{WritesAll};
ghost use Rattle.program_sessions.specs.Session.{session_of};
ghost use Rattle.program_sessions.specs.Stream.{SessionFollows};

use geometry::Record;
use program_streams::{Failure, Filter, Taken, exit_code, pass};
use std::io::{Read, Write};
use std::process::ExitCode;
use text_hex::LINE_SIZE;
use text_lines::Gathered;

// A session with the index, and the buffers that it needs.
#[derive(Drop)]
struct Session {
    // the line that hasn't ended yet
    line: Gathered,
    // its first bytes
    keep: [u8; LINE_SIZE],
    pool: [u8; Record::PROGRAM_POOL],
}

impl Filter for Session {
    ghost room = { line_size };

    ghost follows = { λ input written s. SessionFollows input written s.line s.keep s.pool };

    ghost filtered = { session_of };

    fn take_in(&mut self, chunk: &[u8], out: &mut [u8]) -> Taken {
        program_sessions::take_in(chunk, &mut self.line, &mut self.keep, &mut self.pool, out)
    }

    fn finish(&mut self, out: &mut [u8]) -> usize {
        program_sessions::finish(self.line, &mut self.keep, &mut self.pool, out)
    }
}

// Answers the lines of an input, to its end.
fn answer_lines<R: Read, W: Write>(input: &mut R, output: &mut W) -> Result<(), Failure>
    ensures { OnOk result (WritesAll session_of (R.remaining input.old) (W.contents output.old) (W.contents output.new)) }
{
    let mut session = Session {
        line: Gathered::start(),
        keep: [0; LINE_SIZE],
        pool: [0; Record::PROGRAM_POOL],
    };
    session.line = program_sessions::start(&mut session.pool);
    pass(input, output, &mut session, &mut [0; CHUNK], &mut [0; ROOM])
}

fn main(rt: HostRuntime) -> ExitCode {
    let outcome = answer_lines(&mut rt.stdin(), &mut rt.stdout());
    exit_code(&rt, "answers", outcome)
}

// bytes of one read: its frames are fewer than one call of the index takes
const CHUNK: usize = 16384;

// bytes of answers that are written at once: a line for each frame that one call of the index takes
const ROOM: usize = LINE_SIZE * (Record::LONGEST_COMMANDS / Record::FRAME_SIZE);
