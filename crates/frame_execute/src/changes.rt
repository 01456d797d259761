// The commands that change a pool, where no test refused them.
ghost use Rattle.std.specs.Prelude.{◌≡◌};
ghost use Rattle.protocol.specs.Commands.{open_code, close_code, insert_code, delete_code};
ghost use Rattle.frame_queries.specs.Accepted.{Accepted};
ghost use Rattle.frame_status.specs.Statuses.{status_in};
ghost use Rattle.frame_execute.specs.Steps.{Ready, Stepped};

use geometry::Record;
use name_edits::{delete, insert};
use name_open_close::{close, open};
use protocol::{Answer, Command};

pub fn open_name(pool: &mut [u8], c: Command, map: &mut [u8]) -> Answer
    requires { Ready pool.old map.old × (status_in pool.old c ≡ 0) × (c.code ≡ open_code) }
    ensures { Stepped pool.old c result pool.new map.new }
{
    open(pool, usize::from(c.name), c.symbol, c.number as usize, map);
    Answer::with_value(c, 0)
}

pub fn close_name(pool: &mut [u8], c: Command, map: &mut [u8]) -> Answer
    requires { Ready pool.old map.old × (status_in pool.old c ≡ 0) × (c.code ≡ close_code) }
    ensures { Stepped pool.old c result pool.new map.new }
{
    close(pool, usize::from(c.name), map);
    Answer::with_value(c, 0)
}

pub fn insert_mark(pool: &mut [u8], c: Command, found: Record, map: &mut [u8]) -> Answer
    requires { Ready pool.old map.old × Accepted pool.old c found × (c.code ≡ insert_code) }
    ensures { Stepped pool.old c result pool.new map.new }
{
    insert(
        pool,
        usize::from(c.name),
        found,
        c.number as usize,
        c.symbol,
        map,
    );
    Answer::with_value(c, u32::from(found.length) + 1)
}

pub fn delete_mark(pool: &mut [u8], c: Command, found: Record, map: &mut [u8]) -> Answer
    requires { Ready pool.old map.old × Accepted pool.old c found × (c.code ≡ delete_code) }
    ensures { Stepped pool.old c result pool.new map.new }
{
    let mark = delete(pool, usize::from(c.name), found, c.number as usize, map);
    Answer {
        status: 0,
        name: c.name,
        symbol: mark,
        depth: 0,
        value: u32::from(found.length) - 1,
    }
}
