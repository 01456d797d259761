// What both programs do with their streams: standard input is read in chunks, each chunk is handed to a filter, and what the filter fills
// is written to standard output. What the filter makes of the bytes is its own.
#![tactic(auto)]

ghost use Rattle.std.specs.Prelude.{Some, ◌≡◌, ◌≤◌, ◌<◌, List, [], ◌++◌, ℕ, length, take, OnOk};
ghost use Rattle.std.specs.Process.{exit_status};
ghost use Rattle.std.specs.Io.{ReadsAtMost};
ghost use Rattle.std.specs.Io.KnownBytes.{Appends, ReadConsumes};
ghost use Rattle.program_streams.specs.Passing.{PassesOn, PassesRest, WritesAll};
ghost use Rattle.program_streams.specs.Failing.{told_of, exit_status_of};

use std::error::Error;
use std::fmt;
use std::io::{Read, Write};
use std::process::ExitCode;

// What came of a chunk's bytes. Lengths and no slices, since the filter fills what its caller lends and writes out.
#[derive(Clone, Copy, Debug, PartialEq, Eq)]
pub struct Taken {
    // how many bytes were taken from the chunk's front
    pub taken: usize,
    // how many bytes to be written stand at the front of the output
    pub filled: usize,
}

// What a program makes of its input, step by step.
pub trait Filter {
    // the room that a step needs: with it, something is taken
    ghost room: { ℕ };

    // the filter may be in this state after this input, with this much written
    ghost follows: { List ℕ → List ℕ → Self → Type 0 };

    // what is written for a whole input
    ghost filtered: { List ℕ → List ℕ };

    // Takes bytes in from a chunk's front and puts what is to be written for them at the front of out.
    fn take_in(&mut self, chunk: &[u8], out: &mut [u8]) -> Taken
        ensures within { result.taken ≤ length chunk.now }
        ensures fits { result.filled ≤ length out.new }
        ensures onward { room ≤ length out.old → 0 < length chunk.now → 0 < result.taken }
        ensures followed { (input written : List ℕ) → follows input written self.old
            → follows (input ++ take result.taken chunk.now) (written ++ take result.filled out.new) self.new };

    // The input is over: puts what is still to be written at the front of out, and answers how many bytes that are.
    fn finish(&mut self, out: &mut [u8]) -> usize
        requires { room ≤ length out.old }
        ensures fits { result ≤ length out.new }
        ensures whole { (input written : List ℕ) → follows input written self.old
            → filtered input ≡ written ++ take result out.new };
}

// Why a program gave up.
#[derive(Clone, Copy, Debug, PartialEq, Eq)]
pub enum Failure {
    Reading,
    Writing,
}

impl fmt::Display for Failure {
    ghost output = { λ failure. Some (told_of failure) };

    fn fmt<W: fmt::Write>(&self, f: &mut fmt::Formatter<W>) -> fmt::Result {
        match self {
            Failure::Reading => write!(f, "standard input can't be read"),
            Failure::Writing => write!(f, "standard output can't be written"),
        }
    }
}

impl Error for Failure {}

// Reads to the end of the input and writes what the filter makes of it: a chunk at once is read, and as much as out holds is written.
// A proved loop has to end, and nothing says that the input does: the turns are counted up to a number that no run reaches.
pub fn pass<R: Read, W: Write, F: Filter>(
    input: &mut R,
    output: &mut W,
    filter: &mut F,
    chunk: &mut [u8],
    out: &mut [u8],
) -> Result<(), Failure>
    requires some { 0 < length chunk.old }
    requires room { F.room ≤ length out.old }
    ensures { OnOk result (F.follows [] [] filter.old
        → WritesAll F.filtered (R.remaining input.old) (W.contents output.old) (W.contents output.new)) }
{
    for _turn in 0..u64::MAX {
        let read = read_in(input, chunk)?;
        if read == 0 {
            return pass_rest(output, filter, out);
        }
        pass_chunk(&chunk[..read], output, filter, out)?;
    }
    Ok(())
}

// Writes what the filter makes of a chunk, as much at a time as out holds.
fn pass_chunk<W: Write, F: Filter>(
    chunk: &[u8],
    output: &mut W,
    filter: &mut F,
    out: &mut [u8],
) -> Result<(), Failure>
    requires { F.room ≤ length out.old }
    ensures { OnOk result (PassesOn F.follows chunk.now filter.old filter.new (W.contents output.old) (W.contents output.new)) }
{
    let mut rest = chunk;
    while !rest.is_empty() {
        let step = filter.take_in(rest, out);
        write_out(output, &out[..step.filled])?;
        rest = &rest[step.taken..];
    }
    Ok(())
}

// Writes what the filter has left when the input is over.
fn pass_rest<W: Write, F: Filter>(
    output: &mut W,
    filter: &mut F,
    out: &mut [u8],
) -> Result<(), Failure>
    requires { F.room ≤ length out.old }
    ensures { OnOk result (PassesRest F.follows F.filtered filter.old (W.contents output.old) (W.contents output.new)) }
{
    let filled = filter.finish(out);
    write_out(output, &out[..filled])
}

// Reads once, as many bytes as come and the chunk holds; none only at the end of the input.
fn read_in<R: Read>(input: &mut R, chunk: &mut [u8]) -> Result<usize, Failure>
    ensures bound { ReadsAtMost result chunk.new }
    ensures bytes { ReadConsumes (R.remaining input.old) (R.remaining input.new) result chunk.new }
{
    input.read(chunk).map_err(|_| Failure::Reading)
}

// Writes bytes, all of them.
fn write_out<W: Write>(output: &mut W, bytes: &[u8]) -> Result<(), Failure>
    ensures { OnOk result (Appends (W.contents output.old) (W.contents output.new) bytes.now) }
{
    output.write_all(bytes).map_err(|_| Failure::Writing)
}

// How a program ends: a failure is told on standard error, under the program's name.
pub fn exit_code(rt: &impl Eprint, program: &str, outcome: Result<(), Failure>) -> ExitCode
    ensures { exit_status result ≡ exit_status_of outcome }
{
    match outcome {
        Ok(()) => ExitCode::SUCCESS,
        Err(failure) => {
            let _ = eprintln!(rt; "{program}: {failure}");
            ExitCode::FAILURE
        }
    }
}
