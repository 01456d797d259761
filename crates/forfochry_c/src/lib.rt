// Forfochry for programs in C and Rust: the three calls of the library `forfochry` as functions that hosts link. Their interface is
// include/forfochry.h.
#![tactic(auto)]

ghost use Rattle.std.specs.Prelude.{◌≡◌};
ghost use Rattle.forfochry_c.specs.Numbers.{outcome_of};
ghost use Rattle.text_fixed_form.specs.Mark.{mark_of};
ghost use Rattle.call_tests.specs.Outcomes.{call_outcome, call_status};
ghost use Rattle.call_run.specs.Calls.{Formats, Ran};

use call_tests::CallError;

// what one in the upper half of a number of 64 bits counts
const UPPER_HALF: u64 = 4294967296;

#[unsafe(no_mangle)]
pub extern "C" fn forfochry_format(pool: &mut [u8]) -> u32
    ensures { Formats pool.old result pool.new }
{
    status(forfochry::format(pool))
}

// The status in the upper half of the number, the count of frames run in the lower.
#[unsafe(no_mangle)]
pub extern "C" fn forfochry_run(pool: &mut [u8], commands: &[u8], answers: &mut [u8]) -> u64
    ensures { Ran pool.old commands.now answers.old (outcome_of result) pool.new answers.new }
{
    number(forfochry::run(pool, commands, answers))
}

#[unsafe(no_mangle)]
pub extern "C" fn forfochry_mark(line: &[u8]) -> u8
    ensures { result ≡ mark_of line.now }
{
    forfochry::mark(line)
}

// The status of a call with this result: 0 where nothing refuses it.
fn status(done: Result<(), CallError>) -> u32
    ensures { result ≡ call_status done }
{
    match done {
        Ok(()) => 0,
        Err(error) => u32::from(error),
    }
}

// The outcome of a call as one number, as `outcome_of` reads it.
fn number(run: Result<u32, CallError>) -> u64
    ensures { outcome_of result ≡ call_outcome run }
{
    match run {
        Ok(count) => u64::from(count),
        Err(error) => u64::from(u32::from(error)) * UPPER_HALF,
    }
}
