// A branch whose child lost a mark. The level is the child's, one below the branch's.
ghost use Rattle.tree_delete.specs.Mends.{ShortReady, SettleReady, Mended};

use crate::pairs::mend_pair;
use pool_entries::{Block, least_entries, take_mark};

// Brings the branch b up to date with its child k, which lost a mark c: its entry says one less, and it is mended if it is short.
pub fn settle(pool: &mut [u8], level: usize, b: usize, k: usize, c: u8, map: &mut [u8])
    requires { SettleReady pool.old map.old level b k c }
    ensures { Mended level b pool.old pool.new map.old map.new }
{
    take_mark(pool, b, k, c as usize);
    mend_child(pool, level, b, k, map);
}

// Mends child k of the branch b if it is short: with its left neighbour if it has one, else with its right one.
fn mend_child(pool: &mut [u8], level: usize, b: usize, k: usize, map: &mut [u8])
    requires { ShortReady pool.old map.old level b k }
    ensures { Mended level b pool.old pool.new map.old map.new }
{
    let child = Block { pool, b }.link(k);
    let child = Block { pool, b: child };
    if child.entry_count() < least_entries(level) {
        mend_pair(pool, level, b, k.saturating_sub(1), map);
    }
}
