// The index: a pool formatted, and command frames run on it.
#![tactic(auto)]

ghost use Rattle.call_tests.specs.Outcomes.{call_outcome, call_status};
ghost use Rattle.call_run.specs.Calls.{Formats, Ran};
ghost use Rattle.call_run.specs.Frames.{FramesReady, FramesRun};

use call_tests::{CallError, status_of_call};
use frame_execute::execute;
use geometry::Record;
use pool::{clear_bytes, put_byte, shares_of};
use pool_check::length_allowed;
use protocol::Command;

// Sets every byte, so that the pool is sound with no name open.
pub fn format(pool: &mut [u8]) -> Result<(), CallError>
    ensures { Formats pool.old (call_status result) pool.new }
{
    if !length_allowed(pool.len()) {
        return Err(CallError::PoolLength);
    }
    clear_bytes(pool, 0, pool.len());
    put_byte(pool, 0, Record::LAYOUT_NUMBER);
    Ok(())
}

// Runs the command frames in order, writes one answer each and tells how many; or refuses the call and changes nothing.
#[tactic(auto, using(crate::proofs::Calls::call_laws))]
pub fn run(pool: &mut [u8], commands: &[u8], answers: &mut [u8]) -> Result<u32, CallError>
    ensures { Ran pool.old commands.now answers.old (call_outcome result) pool.new answers.new }
{
    let mut map = [0u8; Record::MOST_SHARES];
    status_of_call(pool, commands, answers, &mut map)?;
    let shares = shares_of(pool);
    run_frames(pool, commands, answers, &mut map[..shares]);
    Ok((commands.len() / Record::FRAME_SIZE) as u32)
}

// Runs the frames on a sound pool, whose map says which blocks are free. A frame's place is the same in both buffers, so the loop goes over
// places: chunks of both would have the room behind the answers told apart first.
fn run_frames(pool: &mut [u8], commands: &[u8], answers: &mut [u8], map: &mut [u8])
    requires { FramesReady pool.old map.old commands.now answers.old }
    ensures { FramesRun pool.old commands.now answers.old pool.new answers.new }
{
    for k in 0..commands.len() / Record::FRAME_SIZE {
        let at = Record::FRAME_SIZE * k;
        let command = Command::decode(commands, at);
        let answer = execute(pool, command, map);
        answer.encode(answers, at);
    }
}
