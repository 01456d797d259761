// The check that every call makes: whether any bytes are a sound pool, and which name holds each block.
#![tactic(auto)]

ghost use Rattle.pool.specs.Sound.{LengthAllowed};
ghost use Rattle.pool_check.specs.Parts.{Checked};
ghost use Rattle.pool_check.specs.Says.{Says};

use crate::directory::header_sound;
use crate::lent::Lent;
use geometry::Record;
use pool::shares_of;

mod block;
mod directory;
mod lent;
mod names;
mod summaries;
mod walk;

pub use names::promised;

// Whether a pool may have so many bytes.
pub fn length_allowed(bytes: usize) -> bool
    ensures { Says result (LengthAllowed bytes) }
{
    bytes % Record::BLOCK_SIZE == 0
        && (Record::SHORTEST_POOL..=Record::LONGEST_POOL).contains(&bytes)
}

// Whether the pool is sound. The map then has 0 for each free block, and for each other its holder's number.
pub fn check(pool: &[u8], map: &mut [u8; Record::MOST_SHARES]) -> bool
    ensures { Checked pool.now result map.new }
{
    let outlined = length_allowed(pool.len())
        && header_sound(pool)
        && promised(pool) <= shares_of(pool);
    if !outlined {
        return false;
    }
    *map = [0; Record::MOST_SHARES];
    Lent { bytes: pool }.check_names(map)
}
