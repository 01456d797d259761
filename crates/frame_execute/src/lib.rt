// One frame executed on a sound pool: its status by the tests of RULES, Statuses, and where none applies, what the command asks.
#![tactic(auto)]

ghost use Rattle.std.specs.Prelude.{◌≢◌};
ghost use Rattle.protocol.specs.Commands.{unpromised_code};
ghost use Rattle.frame_status.specs.Statuses.{WellFormed};
ghost use Rattle.frame_execute.specs.Steps.{answer_told, Ready, Stepped};

use crate::changes::{close_name, delete_mark, insert_mark, open_name};
use frame_queries::{ask, ask_unpromised};
use frame_status::{Request, form_status, status_of};
use pool::read_record;
use protocol::{Answer, Command, Operation, Reason};

mod changes;

// Answers one command and does what it says, or refuses it.
pub fn execute(pool: &mut [u8], c: Command, map: &mut [u8]) -> Answer
    requires { Ready pool.old map.old }
    ensures { Stepped pool.old c result pool.new map.new }
{
    match carry_out(pool, c, map) {
        Ok(answer) => answer,
        Err(reason) => Answer::refused(c, reason as u8),
    }
}

// Does what a command says and answers it, unless one of the tests refuses it.
fn carry_out(pool: &mut [u8], c: Command, map: &mut [u8]) -> Result<Answer, Reason>
    requires { Ready pool.old map.old }
    ensures { Stepped pool.old c (answer_told c result) pool.new map.new }
{
    let request = form_status(c)?;
    match request.operation {
        Operation::Unpromised => Ok(ask_unpromised(pool, c)),
        _ => carry_out_named(pool, request, map),
    }
}

// The same for a well-formed command to a name. The name's record is read once, here.
fn carry_out_named(pool: &mut [u8], request: Request, map: &mut [u8]) -> Result<Answer, Reason>
    requires { Ready pool.old map.old × WellFormed request.command × (request.command.code ≢ unpromised_code) }
    ensures { Stepped pool.old request.command (answer_told request.command result) pool.new map.new }
{
    let c = request.command;
    let found = read_record(pool, usize::from(c.name));
    status_of(pool, request, found)?;
    match request.operation {
        Operation::Open => Ok(open_name(pool, c, map)),
        Operation::Close => Ok(close_name(pool, c, map)),
        Operation::Insert => Ok(insert_mark(pool, c, found, map)),
        Operation::Delete => Ok(delete_mark(pool, c, found, map)),
        _ => Ok(ask(pool, request, found)),
    }
}
