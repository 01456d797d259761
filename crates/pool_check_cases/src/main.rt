// Runs the check on a table of pools, most of them with one fault, and writes each one's label and verdict.
// `tests/damaged_pools.py` makes the table and what is to be written.
#![tactic(auto)]

ghost use Rattle.std.specs.Prelude.{◌+◌, ◌≤◌, length};

use geometry::Record;
use std::io;
use std::io::Read;

// Bytes before each pool: its length, how many of its bytes follow, and a label.
const HEAD_SIZE: usize = 64;

const NUMBER_SIZE: usize = 3;

const LABEL_AT: usize = 6;

// Room for a pool that is too long by a block.
const ROOM: usize = Record::LONGEST_POOL + Record::BLOCK_SIZE;

fn main(rt: HostRuntime) -> io::Result<()> {
    let mut input = rt.stdin();
    let mut head = [0u8; HEAD_SIZE];
    for _ in 0..1000 {
        if read_full(&mut input, &mut head)? < HEAD_SIZE as u64 {
            return Ok(());
        }
        let mut pool = [0u8; ROOM];
        run_case(&rt, &mut input, &head, &mut pool)?;
    }
    Ok(())
}

// Reads the bytes behind a head to the front of a pool of zeros, and writes the head's label with the verdict.
fn run_case(
    rt: &impl Print,
    input: &mut impl Read,
    head: &[u8; HEAD_SIZE],
    pool: &mut [u8; ROOM],
) -> io::Result<()> {
    let told = number(head, 0);
    let given = number(head, NUMBER_SIZE);
    if told > pool.len() || given > told {
        return Ok(());
    }
    let long = read_full(input, &mut pool[..given])?;
    if long < given as u64 {
        return Ok(());
    }
    rt.write_all(&head[LABEL_AT..])?;
    let mut map = [0u8; Record::MOST_SHARES];
    if pool_check::check(&pool[..told], &mut map) {
        rt.write_all(b"sound\n")
    } else {
        rt.write_all(b"refused\n")
    }
}

// Reads until the buffer is full or the input ends, and tells how many bytes stand at its front then.
fn read_full(input: &mut impl Read, mut buf: &mut [u8]) -> io::Result<u64> {
    let mut part = input.take(buf.len() as u64);
    io::copy(&mut part, &mut buf)
}

// A number of three bytes, low byte first.
fn number(head: &[u8], at: usize) -> usize
    requires { at + 3 ≤ length head.now }
{
    u32::from_le_bytes([head[at], head[at + 1], head[at + 2], 0]) as usize
}
