// A new root above the two halves of one that was split.
ghost use Rattle.std.specs.Prelude.{◌<◌};
ghost use Rattle.pool.specs.Bytes.{shares};
ghost use Rattle.pool.specs.Words.{word_limit};
ghost use Rattle.tree_splits.specs.Roots.{PairWritten, RootReady, RootGrown};

use crate::branches::put_entry;
use pool_blocks::empty_block;
use pool_entries::{Block, Summary};
use pool_holders::take_block;

// Takes a block for a root above two blocks of a level.
pub fn grow_root(
    pool: &mut [u8],
    level: usize,
    left: usize,
    right: usize,
    map: &mut [u8],
    holder: u8,
) -> usize
    requires { RootReady pool.old map.old level left right holder }
    ensures { RootGrown level left right holder result pool.old pool.new map.old map.new }
{
    let first = Block { pool, b: left }.summary(level);
    let second = Block { pool, b: right }.summary(level);
    let root = take_block(map, holder);
    write_pair(pool, root, left, first, right, second);
    root
}

// Makes the block b a branch with two entries.
fn write_pair(pool: &mut [u8], b: usize, left: usize, first: Summary, right: usize, second: Summary)
    requires { (b < shares pool.old) × (left < word_limit) × (right < word_limit) }
    ensures { PairWritten b left right first second pool.old pool.new }
{
    empty_block(pool, b);
    put_entry(pool, b, 0, left, first);
    put_entry(pool, b, 1, right, second);
}
