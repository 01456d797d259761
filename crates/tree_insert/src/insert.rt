// A mark put into a tree, at any level.
ghost use Rattle.std.specs.Prelude.{◌≤◌, None};
ghost use Rattle.geometry.specs.Layout.{most_height};
ghost use Rattle.tree_splits.specs.Inserts.{InsertReady, Inserted};
ghost use Rattle.tree_insert.specs.Ways.{Climber, Climbed, Counter, CountedUp};

use crate::descent::{LEVELS, Step, find_way};
use pool_entries::add_mark;
use tree_splits::{insert_in_leaf, take_up};

// Puts c in at place i of the tree at block b, a block of a level, and answers the new block behind b if b was split. It enters one block a
// level, and writes no other that it didn't take.
pub fn insert_in(
    pool: &mut [u8],
    level: usize,
    b: usize,
    i: usize,
    c: u8,
    map: &mut [u8],
    holder: u8,
) -> Option<usize>
    requires { InsertReady pool.old map.old level b i c holder × (level ≤ most_height) }
    ensures { Inserted level b i c holder result pool.old pool.new map.old map.new }
{
    let mut way = [Step { block: 0, child: 0 }; LEVELS];
    let place = find_way(pool, level, b, i, &mut way);
    let grown = insert_in_leaf(pool, way[0].block, place, c, map, holder);
    go_up(pool, level, c, &way, grown, map, holder)
}

// Goes back up a way from its leaf, which an insert of c made this of: each branch takes up what became of its child.
fn go_up(
    pool: &mut [u8],
    level: usize,
    c: u8,
    way: &[Step; LEVELS],
    leaf: Option<usize>,
    map: &mut [u8],
    holder: u8,
) -> Option<usize>
    requires high { level ≤ most_height }
    requires start { Climber level c holder way.now 0 leaf pool.old map.old }
    ensures { Climbed level c holder way.now 0 leaf pool.old map.old
        level result pool.new map.new }
{
    let mut grown = leaf;
    for at in 0..level {
        let Some(new) = grown else {
            count_up(pool, at, level, c, way);
            return None;
        };
        let step = &way[at + 1];
        let child = way[at].block;
        grown = take_up(pool, at, step.block, step.child, child, new, map, holder);
    }
    grown
}

// Goes up a way from a level where nothing was split: each branch above counts one mark more, a c.
fn count_up(pool: &mut [u8], from: usize, level: usize, c: u8, way: &[Step; LEVELS])
    requires high { level ≤ most_height }
    requires start { Counter level c way.now from pool.old }
    ensures { CountedUp level c way.now from pool.old level pool.new }
{
    for step in &way[from + 1..=level] {
        add_mark(pool, step.block, step.child, c as usize);
    }
}
