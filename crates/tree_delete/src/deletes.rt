// A mark taken out of the tree at a block of any level.
ghost use Rattle.tree_delete.specs.Removals.{DeleteReady, Deleted};

use crate::mends::settle;
use geometry::Record;
use pool_blocks::leaf::delete_mark;
use pool_entries::Block;

// Takes place i out of the tree at block b, and answers the mark that stood there. Blocks that leave the tree are free in the map.
pub fn delete_in(pool: &mut [u8], level: usize, b: usize, i: usize, map: &mut [u8]) -> u8
    requires { DeleteReady pool.old map.old level b i }
    ensures { Deleted level b i result pool.old pool.new map.old map.new }
{
    if level == 0 {
        return delete_mark(pool, b, i);
    }
    let block = Block { pool, b };
    let seat = block.seat_by(Record::ENTRY_MARKS_AT, i);
    let child = block.link(seat.k);
    let taken = delete_in(pool, level - 1, child, i - seat.before, map);
    settle(pool, level - 1, b, seat.k, taken, map);
    taken
}
