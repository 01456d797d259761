// The way down to the leaf that takes a place. It is kept, so that an edit can go back up it: a call for each level would cost more than
// the work there.
ghost use Rattle.std.specs.Prelude.{◌≡◌, ◌+◌, ◌≤◌, length};
ghost use Rattle.geometry.specs.Layout.{most_height};
ghost use Rattle.tree_insert.specs.Ways.{Insertable, WayTo};

use geometry::Record;
use pool_entries::Block;

// A way has a step at each level, the leaves' too.
pub const LEVELS: usize = Record::MOST_HEIGHT + 1;

// One level of a way: the block entered, and the child taken there. At a leaf there is none, and 0 stands there, which nothing reads: an
// option would have to be taken apart at each level, where there always is one.
#[derive(Clone, Copy)]
pub struct Step {
    pub block: usize,
    pub child: usize,
}

// Finds the way from block b of a level to the leaf that takes place i, writes its steps by level, and answers the place in that leaf. The
// array is lent, as a way that is returned would be copied.
pub fn find_way(pool: &[u8], level: usize, b: usize, i: usize, way: &mut [Step; LEVELS]) -> usize
    requires insertable { Insertable pool.now level b i × (level ≤ most_height) }
    requires room { length way.old ≡ most_height + 1 }
    ensures { WayTo pool.now level b i way.new result }
{
    let mut block = b;
    let mut place = i;
    for at in (0..level).rev() {
        let branch = Block { pool, b: block };
        let seat = branch.seat_by(Record::ENTRY_MARKS_AT, place);
        way[at + 1] = Step {
            block,
            child: seat.k,
        };
        block = branch.link(seat.k);
        place -= seat.before;
    }
    way[0] = Step { block, child: 0 };
    place
}
