// The walk over a tree: checking a block and checking a branch's children call each other. Every call hands the tree on by its reference: a
// slice would be copied to the stack at each.
ghost use Rattle.std.specs.Prelude.{◌+◌, ◌≤◌, ◌<◌};
ghost use Rattle.geometry.specs.Layout.{most_branch};
ghost use Rattle.lists.specs.Froms.{from};
ghost use Rattle.lists.specs.Joins.{joined};
ghost use Rattle.pool.specs.Blocks.{link as link_of};
ghost use Rattle.pool.specs.Bytes.{shares};
ghost use Rattle.pool.specs.Trees.{blocks_at};
ghost use Rattle.pool_check.specs.Walks.{Walked};
ghost use Rattle.pool_check.specs.Parts.{WalkedTree, SoundChildren};

use crate::lent::Tree;
use geometry::Record;
use pool_entries::{Block, least_entries};

impl Tree<'_> {
    // Whether the tree at a block is sound and none of its blocks was met before. They are then marked as the holder's.
    // The marks of a block that is a leaf itself are left to the caller, who may have a parent's entry to go by.
    #[cycle(check_block_check_children)]
    pub fn check_block(
        &self,
        level: usize,
        b: usize,
        fewest: usize,
        map: &mut [u8; Record::MOST_SHARES],
    ) -> bool
        ensures { Walked result (WalkedTree self.now.pool.bytes.now self.now.alphabet fewest level b) self.now.holder
            (blocks_at self.now.pool.bytes.now level b) map.old map.new }
    {
        if !self.enter(level, b, fewest, map) {
            return false;
        }
        let block = Block {
            pool: self.pool.bytes,
            b,
        };
        let many = block.entry_count();
        level == 0 || self.check_children(level - 1, b, 0, many, map)
    }

    // The same for a branch's children of a level, from child k on, so many as are left; each entry must repeat its child's summary.
    #[cycle(check_block_check_children)]
    fn check_children(
        &self,
        level: usize,
        b: usize,
        k: usize,
        left: usize,
        map: &mut [u8; Record::MOST_SHARES],
    ) -> bool
        requires { (b < shares self.now.pool.bytes.now) × (k + left ≤ most_branch) }
        ensures { Walked result (SoundChildren self.now.pool.bytes.now self.now.alphabet level b k left) self.now.holder
            (joined (blocks_at self.now.pool.bytes.now level) (from (link_of self.now.pool.bytes.now b) k left))
            map.old map.new }
    {
        if left == 0 {
            return true;
        }
        let branch = Block {
            pool: self.pool.bytes,
            b,
        };
        let child = branch.link(k);
        self.check_block(level, child, least_entries(level), map)
            && self.repeats(level, b, k, child)
            && self.check_children(level, b, k + 1, left - 1, map)
    }
}
