// What `tree_query` answers of a pool on standard input, compared with answers found one mark at a time: of every open name, every place
// and every symbol. The pool and the marks that it should bear are those of tests/query_pool.py, which knows docs/LAYOUT.md alone.
#![tactic(auto)]

ghost use Rattle.std.specs.Prelude.{◌*◌, ◌≤◌, ◌<◌, length};
ghost use Rattle.geometry.specs.Limits.{names};
ghost use Rattle.pool.specs.Sound.{Sound};
ghost use Rattle.tree_query_cases.specs.Slots.{slot_size};

use crate::comparing::{Asked, Difference};
use geometry::Record;
use std::io;
use std::io::Read;

mod comparing;

// bytes of the pool
const POOL: usize = 8192;
// behind the pool, bytes of what is expected of each name: its depth, a zero, its number of marks as a word, and its marks
const SLOT: usize = 1024;
// where a slot has the number of marks
const NUMBER_AT: usize = 2;
// where it has the marks
const MARKS_AT: usize = 4;

fn main(rt: HostRuntime) -> io::Result<()> {
    let mut input = rt.stdin();
    let mut pool = [0u8; POOL];
    let mut slots = [0u8; SLOT * Record::NAMES];
    let mut map = [0u8; Record::MOST_SHARES];
    io::copy(&mut input.by_ref().take(POOL as u64), &mut &mut pool[..])?;
    io::copy(&mut input.take(slots.len() as u64), &mut &mut slots[..])?;
    if pool_check::check(&pool, &mut map) {
        compare_names(&rt, &pool, &slots)
    } else {
        println!(rt; "the pool isn't sound")
    }
}

// Compares each name with its slot.
fn compare_names(rt: &impl Print, pool: &[u8], slots: &[u8]) -> io::Result<()>
    requires { Sound pool.now × (slot_size * names ≤ length slots.now) }
{
    for name in 0..Record::NAMES {
        let at = SLOT * name;
        compare_name(rt, pool, name, &slots[at..at + SLOT])?;
    }
    Ok(())
}

// Compares a name with its slot, if it is open, and says what came of it.
fn compare_name(rt: &impl Print, pool: &[u8], name: usize, slot: &[u8]) -> io::Result<()>
    requires { (name < names) × Sound pool.now × (slot_size ≤ length slot.now) }
{
    let found = pool::read_record(pool, name);
    if found.kind == Record::KIND_CLOSED {
        return Ok(());
    }
    let depth = usize::from(slot[0]);
    match (Asked { pool, found }).compare(depth, slot) {
        Ok(number) => {
            println!(rt; "name {name}: {number} marks at depth {depth}, every answer right")
        }
        Err(difference) => tell(rt, name, difference),
    }
}

// Says what differs, and for which symbol.
fn tell(rt: &impl Print, name: usize, difference: Difference) -> io::Result<()> {
    println!(rt; "name {name}: {difference}")?;
    match difference {
        Difference::Rank { symbol, .. } | Difference::Select { symbol, .. } => {
            println!(rt; "name {name}: asked for symbol {symbol}")
        }
        _ => Ok(()),
    }
}
