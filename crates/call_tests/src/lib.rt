// The tests that a call must pass, in their order, and the errors that refuse it.
#![tactic(auto)]

ghost use Rattle.std.specs.Prelude.{◌≡◌};
ghost use Rattle.pool_check.specs.Says.{Says};
ghost use Rattle.call_tests.specs.Outcomes.{number_of_error, call_status};
ghost use Rattle.call_tests.specs.Tests.{CommandsAllowed, Judged};

use geometry::Record;
use pool_check::{check, length_allowed};

// Why a call is refused; its number is the call's status.
#[derive(Clone, Copy, PartialEq, Eq)]
pub enum CallError {
    // the pool's length isn't allowed
    PoolLength = 101,
    // the commands' length isn't a whole number of frames, or is too large
    CommandsLength = 102,
    // the answer room is shorter than the commands
    RoomShort = 103,
    // the pool isn't sound
    NotSound = 104,
}

impl From<CallError> for u32 {
    ghost from_gives = { λ error status. status ≡ number_of_error error };

    // The call's status.
    fn from(error: CallError) -> u32 {
        error as u32
    }
}

// The tests of a call, one after the other. Where all are passed, the map says who holds each block.
pub fn status_of_call(
    pool: &[u8],
    commands: &[u8],
    answers: &[u8],
    map: &mut [u8; Record::MOST_SHARES],
) -> Result<(), CallError>
    ensures { Judged pool.now commands.now answers.now (call_status result) map.new }
{
    if !length_allowed(pool.len()) {
        return Err(CallError::PoolLength);
    }
    if !commands_allowed(commands.len()) {
        return Err(CallError::CommandsLength);
    }
    if answers.len() < commands.len() {
        return Err(CallError::RoomShort);
    }
    if !check(pool, map) {
        return Err(CallError::NotSound);
    }
    Ok(())
}

// Whether commands may have so many bytes.
fn commands_allowed(bytes: usize) -> bool
    ensures { Says result (CommandsAllowed bytes) }
{
    bytes % Record::FRAME_SIZE == 0 && bytes <= Record::LONGEST_COMMANDS
}
