// The commands that look at a pool and change nothing, where no test refused them.
#![tactic(auto)]

ghost use Rattle.std.specs.Prelude.{◌≢◌, ◌≡◌, ◌≤◌};
ghost use Rattle.pool.specs.Sound.{Sound};
ghost use Rattle.protocol.specs.Commands.{access_code, rank_code, select_code, unpromised_code};
ghost use Rattle.frame_status.specs.Statuses.{WellFormed};
ghost use Rattle.frame_queries.specs.Accepted.{Accepted, answer_of};

use frame_status::{Request, unpromised};
use geometry::Record;
use protocol::{Answer, Command, Operation};
use tree_query::{access, rank, select};

// The answer to a query of a name, whose record was read.
pub fn ask(pool: &[u8], request: Request, found: Record) -> Answer
    requires { Accepted pool.now request.command found × (access_code ≤ request.command.code) × (request.command.code ≢ unpromised_code) }
    ensures { result ≡ answer_of pool.now request.command }
{
    let c = request.command;
    match request.operation {
        Operation::Access => answer_access(pool, c, found),
        Operation::Rank => answer_rank(pool, c, found),
        Operation::Select => answer_select(pool, c, found),
        _ => Answer::with_value(c, u32::from(found.length)),
    }
}

fn answer_access(pool: &[u8], c: Command, found: Record) -> Answer
    requires { Accepted pool.now c found × (c.code ≡ access_code) }
    ensures { result ≡ answer_of pool.now c }
{
    let place = access(pool, found, c.number as usize);
    Answer {
        status: 0,
        name: c.name,
        symbol: place.mark,
        depth: place.blocks as u8,
        value: 0,
    }
}

fn answer_rank(pool: &[u8], c: Command, found: Record) -> Answer
    requires { Accepted pool.now c found × (c.code ≡ rank_code) }
    ensures { result ≡ answer_of pool.now c }
{
    let many = rank(pool, found, c.symbol, c.number as usize);
    Answer::with_value(c, many as u32)
}

fn answer_select(pool: &[u8], c: Command, found: Record) -> Answer
    requires { Accepted pool.now c found × (c.code ≡ select_code) }
    ensures { result ≡ answer_of pool.now c }
{
    let place = select(pool, found, c.symbol, c.number as usize);
    Answer::with_value(c, place as u32)
}

// The answer to the query that names no name.
pub fn ask_unpromised(pool: &[u8], c: Command) -> Answer
    requires { Sound pool.now × WellFormed c × (c.code ≡ unpromised_code) }
    ensures { result ≡ answer_of pool.now c }
{
    Answer::with_value(c, unpromised(pool) as u32)
}
