// A session with the index: lines of digits that come in chunks, each answered by a line. specs/Session.antt says what is written for a
// whole input; the functions here follow it chunk by chunk. All lines of a chunk go through one call of the index, as far as there is room.
#![tactic(auto)]

ghost use Rattle.std.specs.Prelude.{◌≡◌, ◌*◌};
ghost use Rattle.text_hex.specs.Lines.{line_size};
ghost use Rattle.program_sessions.specs.Call.{Asks, AnswersLines};
ghost use Rattle.program_sessions.specs.Stream.{SessionStarts, SessionTakesIn, SessionEnds};

use call_run::{format, run};
use geometry::Record;
use program_batches::{complete, read_lines};
use program_streams::Taken;
use text_hex::LINE_SIZE;
use text_lines::{Gathered, LINE_FEED};

// Formats the pool. No line has been read.
pub fn start(pool: &mut [u8]) -> Gathered
    ensures { SessionStarts pool.old pool.new result }
{
    // refused only for a pool whose length isn't allowed, which stays as it was (`SessionStarts`)
    let _ = format(pool);
    Gathered::start()
}

// Takes a chunk's bytes in from the front and answers the lines that end among them, for as long as out has room.
pub fn take_in(
    chunk: &[u8],
    line: &mut Gathered,
    keep: &mut [u8],
    pool: &mut [u8],
    out: &mut [u8],
) -> Taken
    ensures { SessionTakesIn chunk.now line.old line.new keep.old keep.new
        pool.old pool.new out.old out.new result }
{
    let mut commands = [0u8; Record::LONGEST_COMMANDS];
    let batch = read_lines(chunk, *line, keep, out, &mut commands);
    *line = batch.line;
    let used = Record::FRAME_SIZE * batch.frames;
    let filled = answer(pool, &commands[..used], out, batch.lines);
    Taken {
        taken: batch.taken,
        filled,
    }
}

// Runs the commands and puts the answers at the places that were kept for them. Answers how many bytes the lines have.
fn answer(pool: &mut [u8], commands: &[u8], out: &mut [u8], lines: usize) -> usize
    requires { Asks commands.now out.old lines }
    ensures { (result ≡ line_size * lines)
        × AnswersLines pool.old pool.new commands.now out.old out.new lines }
{
    let mut answers = [0u8; Record::LONGEST_COMMANDS];
    // refused for a pool that isn't sound or has no allowed length, which stays as it was (`AnswersLines`)
    let _ = run(pool, commands, &mut answers);
    complete(out, lines, &answers);
    LINE_SIZE * lines
}

// The input is over: answers its last line, if that has no line feed but a byte, as if the line feed had come.
pub fn finish(mut line: Gathered, keep: &mut [u8], pool: &mut [u8], out: &mut [u8]) -> usize
    ensures { SessionEnds line keep.old keep.new pool.old pool.new
        out.old out.new result }
{
    if line.length == 0 {
        return 0;
    }
    take_in(&[LINE_FEED], &mut line, keep, pool, out).filled
}
