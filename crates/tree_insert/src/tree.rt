// A mark put into a whole tree.
ghost use Rattle.tree_insert.specs.Trees.{TreeReady, TreeInserted};

use crate::insert::insert_in;
use tree_splits::{Rooted, grow_root};

// Puts c in at place i of the tree whose root is the block b of a level.
pub fn insert_in_tree(
    pool: &mut [u8],
    level: usize,
    b: usize,
    i: usize,
    c: u8,
    map: &mut [u8],
    holder: u8,
) -> Rooted
    requires { TreeReady pool.old map.old level b i c holder }
    ensures { TreeInserted level b i c holder result pool.old pool.new map.old map.new }
{
    match insert_in(pool, level, b, i, c, map, holder) {
        None => Rooted { level, root: b },
        Some(new) => Rooted {
            level: level + 1,
            root: grow_root(pool, level, b, new, map, holder),
        },
    }
}
