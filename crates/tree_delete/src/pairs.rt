// Two neighbours mended in their parent: joined if their entries fit one node, else shared out. The level is theirs, one below the
// parent's.
ghost use Rattle.std.specs.Prelude.{◌+◌, ◌≤◌, ◌<◌};
ghost use Rattle.shape.specs.Sizes.{one_to_a_byte, most};
ghost use Rattle.pool.specs.Blocks.{entries};
ghost use Rattle.tree_delete.specs.Mends.{PairReady, PairOf, PairMended};

use crate::nodes::{join_nodes, share_nodes};
use pool_blocks::branch::remove_entry;
use pool_entries::{Block, most_entries, set_entry};
use pool_holders::give_back;

// Mends children k and the next of the branch b. It is seldom called, and inlined into delete_in, which calls itself, it would have more
// registers saved at each level: an eighth more instructions there.
#[inline(never)]
pub fn mend_pair(pool: &mut [u8], level: usize, b: usize, k: usize, map: &mut [u8])
    requires { PairReady pool.old map.old level b k }
    ensures { PairMended level b k pool.old pool.new map.old map.new }
{
    let parent = Block { pool, b };
    let left = parent.link(k);
    let right = parent.link(k + 1);
    let many = Block { pool, b: left }.entry_count() + Block { pool, b: right }.entry_count();
    if many <= most_entries(level) {
        join_pair(pool, level, b, k, left, right, map);
    } else {
        share_pair(pool, level, b, k, left, right, map);
    }
}

// Joins them in the left one: the right one's entry is taken out, and its block is free.
fn join_pair(
    pool: &mut [u8],
    level: usize,
    b: usize,
    k: usize,
    left: usize,
    right: usize,
    map: &mut [u8],
)
    requires pair { PairOf pool.old map.old level b k left right }
    requires fit { entries pool.old left + entries pool.old right ≤ most one_to_a_byte level }
    ensures { PairMended level b k pool.old pool.new map.old map.new }
{
    join_nodes(pool, level, left, right);
    let summary = Block { pool, b: left }.summary(level);
    set_entry(pool, b, k, left, summary);
    remove_entry(pool, b, k + 1);
    give_back(map, right);
}

// Shares their entries out, and writes both entries of the parent anew.
fn share_pair(
    pool: &mut [u8],
    level: usize,
    b: usize,
    k: usize,
    left: usize,
    right: usize,
    map: &[u8],
)
    requires pair { PairOf pool.old map.now level b k left right }
    requires many { most one_to_a_byte level < entries pool.old left + entries pool.old right }
    ensures { PairMended level b k pool.old pool.new map.now map.now }
{
    share_nodes(pool, level, left, right);
    let first = Block { pool, b: left }.summary(level);
    let second = Block { pool, b: right }.summary(level);
    set_entry(pool, b, k, left, first);
    set_entry(pool, b, k + 1, right, second);
}
