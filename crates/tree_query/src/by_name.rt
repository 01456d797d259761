// Queries of an open name, by the record that was read of it. Pool and record stay two parameters: that the record is an open name's
// (`OfOpenName`) says 'of some name', and a type's invariant takes only what has one proof. Casts that widen stay `as`: by `from` two
// answers of `count` no longer closed.
ghost use Rattle.std.specs.Prelude.{◌≡◌, ◌≤◌, ◌<◌, length as length_of};
ghost use Rattle.geometry.specs.Limits.{most_alphabet};
ghost use Rattle.pool.specs.Trees.{own_count};
ghost use Rattle.sequence.specs.Definition1.{count as count_of, rank as rank_of, select as select_of};
ghost use Rattle.shape.specs.Trees.{marks_t};
ghost use Rattle.tree_query.specs.Answers.{FoundOf};
ghost use Rattle.tree_query.specs.Records.{OfOpenName, tree_by};

use crate::Found;
use crate::descent::{access_in, rank_in, select_in};
use geometry::Record;
use pool_entries::Block;

// The mark at place i, and its depth.
pub fn access(pool: &[u8], found: Record, i: usize) -> Found
    requires opened { OfOpenName pool.now found }
    requires place { (1 ≤ i) × (i ≤ length_of (marks_t (tree_by pool.now found))) }
    ensures { FoundOf pool.now found i result }
{
    let mut blocks = 0;
    let mark = access_in(&pool, found.height, found.root as usize, i, &mut blocks);
    Found { mark, blocks }
}

// How many of the places 1 to i bear c.
pub fn rank(pool: &[u8], found: Record, c: u8, i: usize) -> usize
    requires opened { OfOpenName pool.now found }
    requires place { (c < most_alphabet) × (i ≤ length_of (marks_t (tree_by pool.now found))) }
    ensures { result ≡ rank_of c (marks_t (tree_by pool.now found)) i }
{
    rank_in(&pool, found.height, found.root as usize, c, i)
}

// The place of the j-th c.
pub fn select(pool: &[u8], found: Record, c: u8, j: usize) -> usize
    requires opened { OfOpenName pool.now found }
    requires number { (c < most_alphabet) × (1 ≤ j) × (j ≤ count_of c (marks_t (tree_by pool.now found))) }
    ensures { result ≡ select_of c (marks_t (tree_by pool.now found)) j }
{
    select_in(&pool, found.height, found.root as usize, c, j)
}

// How many marks c the name has: counted in a root that is a leaf, and said by the entries of any other.
pub fn count(pool: &[u8], found: Record, c: u8) -> usize
    requires opened { OfOpenName pool.now found }
    requires symbol { c < most_alphabet }
    ensures { result ≡ count_of c (marks_t (tree_by pool.now found)) }
{
    let root = found.root as usize;
    if found.height == 0 {
        rank_in(&pool, found.height, root, c, found.length as usize)
    } else {
        Block { pool, b: root }.own_count(1, c as usize)
    }
}
