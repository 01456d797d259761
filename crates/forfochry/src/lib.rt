// Forfochry, the proved mark index: its three calls for programs in Rattle. `forfochry_c` has the same for programs in C and Rust.
#![tactic(auto)]

ghost use Rattle.std.specs.Prelude.{◌≡◌};
ghost use Rattle.text_fixed_form.specs.Mark.{mark_of};
ghost use Rattle.call_tests.specs.Outcomes.{call_outcome, call_status};
ghost use Rattle.call_run.specs.Calls.{Formats, Ran};

use call_tests::CallError;

// Formats the pool: no name is open in it.
pub fn format(pool: &mut [u8]) -> Result<(), CallError>
    ensures { Formats pool.old (call_status result) pool.new }
{
    call_run::format(pool)
}

// Runs the command frames in order, writes one answer each and tells how many; or refuses the call and changes nothing.
pub fn run(pool: &mut [u8], commands: &[u8], answers: &mut [u8]) -> Result<u32, CallError>
    ensures { Ran pool.old commands.now answers.old (call_outcome result) pool.new answers.new }
{
    call_run::run(pool, commands, answers)
}

// The mark of a line of fixed-form Fortran, given without its line end.
pub fn mark(line: &[u8]) -> u8
    ensures { result ≡ mark_of line.now }
{
    text_fixed_form::mark(line)
}
