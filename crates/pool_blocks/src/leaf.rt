// A leaf's own functions: their contracts speak of its marks. Places count from 1. They take pool and block and no `Block`, which doesn't
// say that it is a leaf.
ghost use Rattle.std.specs.Prelude.{◌≡◌, ◌+◌, ◌≤◌, ◌<◌, length};
ghost use Rattle.geometry.specs.Layout.{most_leaf};
ghost use Rattle.sequence.specs.Definition1.{access, rank, select};
ghost use Rattle.pool.specs.Blocks.{leaf_marks};
ghost use Rattle.pool.specs.Bytes.{shares};
ghost use Rattle.pool_blocks.specs.Contents.{LeafAt};
ghost use Rattle.pool_blocks.specs.Leaves.{MarkInserted, MarkDeleted};
ghost use Rattle.pool_blocks.specs.Nodes.{EntriesCut};

use crate::moves::{close_gap, cut_off, open_gap};
use geometry::Record;
use pool::{block_at, put_byte};
use pool_entries::Block;
use sequence::{count_in, find};

// How many marks a search passes at once.
const STRIDE: usize = 16;

// The mark at place i.
pub fn mark_at(pool: &[u8], b: usize, i: usize) -> u8
    requires { LeafAt pool.now b × (1 ≤ i) × (i ≤ length (leaf_marks pool.now b)) }
    ensures { result ≡ access (leaf_marks pool.now b) i }
{
    let at = block_at(b);
    pool[at + (i - 1)]
}

// How many of the first i marks are c. All bytes of the block are compared, and counted where they are no further than i: the loop has a
// fixed length and its counters are bytes, so that the compiler takes sixteen at once and leaves no remainder.
pub fn count_marks(pool: &[u8], b: usize, c: u8, i: usize) -> usize
    requires { LeafAt pool.now b × (i ≤ length (leaf_marks pool.now b)) }
    ensures { result ≡ rank c (leaf_marks pool.now b) i }
{
    let at = block_at(b);
    let behind = Record::BLOCK_SIZE as u8 - i as u8;
    let mut left = Record::BLOCK_SIZE as u8;
    let mut met: u8 = 0;
    for mark in &pool[at..at + Record::BLOCK_SIZE] {
        if *mark == c && left > behind {
            met += 1;
        }
        left -= 1;
    }
    met as usize
}

// The place of the j-th c. Marks are passed by a stride while it isn't among the next, which are counted at once.
pub fn find_mark(pool: &[u8], b: usize, c: u8, j: usize) -> usize
    requires { LeafAt pool.now b }
    ensures { result ≡ select c (leaf_marks pool.now b) j }
{
    let at = block_at(b);
    let marks = &pool[at..at + Block { pool, b }.entry_count()];
    let (strides, _) = marks.as_chunks::<STRIDE>();
    let mut passed = 0;
    let mut left = j;
    for stride in strides {
        let met = count_in(stride, 0, STRIDE, c);
        if met >= left {
            break;
        }
        left -= met;
        passed += STRIDE;
    }
    passed + find(&marks[passed..], c, left)
}

// Puts c in at place i.
pub fn insert_mark(pool: &mut [u8], b: usize, i: usize, c: u8)
    requires { LeafAt pool.old b × (1 ≤ i) × (i ≤ length (leaf_marks pool.old b) + 1)
        × (length (leaf_marks pool.old b) < most_leaf) }
    ensures { MarkInserted b i c pool.old pool.new }
{
    open_gap(pool, b, 1, i - 1);
    put_byte(pool, block_at(b) + (i - 1), c);
}

// Takes place i out, and answers the mark that stood there.
pub fn delete_mark(pool: &mut [u8], b: usize, i: usize) -> u8
    requires { LeafAt pool.old b × (1 ≤ i) × (i ≤ length (leaf_marks pool.old b)) }
    ensures { MarkDeleted b i result pool.old pool.new }
{
    let taken = mark_at(pool, b, i);
    close_gap(pool, b, 1, i - 1);
    taken
}

// Moves the marks behind the first `cut` to the block `new`.
// `cut_branch` is its twin: each promises what it cuts, and must-fail/cut_leaves_the_counts gives that one the wrong size of an entry.
pub fn cut_leaf(pool: &mut [u8], b: usize, new: usize, cut: usize)
    requires { LeafAt pool.old b × (new < shares pool.old) × (b ≡ new → ⊥)
        × (cut ≤ length (leaf_marks pool.old b)) }
    ensures { EntriesCut leaf_marks b new cut pool.old pool.new }
{
    cut_off(pool, b, new, 1, cut);
}
