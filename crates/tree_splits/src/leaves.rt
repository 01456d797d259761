// A mark put into a leaf, which is split if it is full.
ghost use Rattle.std.specs.Prelude.{◌≡◌, ◌+◌, ◌≤◌, ◌<◌, length};
ghost use Rattle.geometry.specs.Layout.{most_leaf};
ghost use Rattle.pool.specs.Blocks.{leaf_marks};
ghost use Rattle.pool.specs.Bytes.{shares};
ghost use Rattle.pool_blocks.specs.Contents.{LeafAt};
ghost use Rattle.tree_splits.specs.Inserts.{InsertReady, Inserted, LeafSplit};

use geometry::Record;
use pool_blocks::leaf::{cut_leaf, insert_mark};
use pool_entries::Block;
use pool_holders::take_block;

// Puts c in at place i of the leaf b.
pub fn insert_in_leaf(
    pool: &mut [u8],
    b: usize,
    i: usize,
    c: u8,
    map: &mut [u8],
    holder: u8,
) -> Option<usize>
    requires { InsertReady pool.old map.old 0 b i c holder }
    ensures { Inserted 0 b i c holder result pool.old pool.new map.old map.new }
{
    let block = Block { pool, b };
    if block.entry_count() < Record::MOST_LEAF {
        insert_mark(pool, b, i, c);
        return None;
    }
    let new = take_block(map, holder);
    split_leaf(pool, b, new, i, c);
    Some(new)
}

// Puts c in at place i of the full leaf b, whose second half goes to the block `new`.
// `split_branch` is its twin: one function over a trait would need laws of lists, whose proofs would have to stand in specs/.
fn split_leaf(pool: &mut [u8], b: usize, new: usize, i: usize, c: u8)
    requires full { LeafAt pool.old b × (length (leaf_marks pool.old b) ≡ most_leaf) }
    requires other { (new < shares pool.old) × (b ≡ new → ⊥) }
    requires place { (1 ≤ i) × (i ≤ most_leaf + 1) }
    ensures { LeafSplit b new i c pool.old pool.new }
{
    if i <= Record::LEAST_LEAF {
        cut_leaf(pool, b, new, Record::LEAST_LEAF - 1);
        insert_mark(pool, b, i, c);
    } else {
        cut_leaf(pool, b, new, Record::LEAST_LEAF);
        insert_mark(pool, new, i - Record::LEAST_LEAF, c);
    }
}
