// A mark taken out of a whole tree.
ghost use Rattle.tree_delete.specs.Removals.{DeleteReady};
ghost use Rattle.tree_delete.specs.Trees.{TreeDeleted};

use crate::deletes::delete_in;
use pool_entries::Block;
use pool_holders::give_back;
use tree_splits::Rooted;

// The mark taken out, and the tree after that.
#[derive(Clone, Copy)]
pub struct Removed {
    pub mark: u8,
    pub tree: Rooted,
}

// Takes place i out of the tree whose root is the block b of a level. A root that is left with one child is free, and the child is the
// root.
pub fn delete_in_tree(pool: &mut [u8], level: usize, b: usize, i: usize, map: &mut [u8]) -> Removed
    requires { DeleteReady pool.old map.old level b i }
    ensures { TreeDeleted level b i result pool.old pool.new map.old map.new }
{
    let mark = delete_in(pool, level, b, i, map);
    let block = Block { pool, b };
    if level == 0 || block.entry_count() > 1 {
        let tree = Rooted { level, root: b };
        return Removed { mark, tree };
    }
    let tree = Rooted {
        level: level - 1,
        root: block.link(0),
    };
    give_back(map, b);
    Removed { mark, tree }
}
