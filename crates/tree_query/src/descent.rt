// Access, rank and select below a block: each calls itself on the child that takes the place, and the levels left fall at each call.
// The pool comes as a reference to the lent slice, which every call hands on as it is, so that the compiler makes a loop of the calls.
ghost use Rattle.std.specs.Prelude.{◌≡◌, ◌+◌, ◌≤◌, ◌<◌};
ghost use Rattle.geometry.specs.Limits.{most_alphabet};
ghost use Rattle.pool.specs.Trees.{shape_at};
ghost use Rattle.pool.specs.Words.{word_limit};
ghost use Rattle.sequence.specs.Definition1.{count, rank, select};
ghost use Rattle.shape.specs.Nested.{flat, marks_in};
ghost use Rattle.tree_query.specs.Answers.{FoundIn};
ghost use Rattle.tree_query.specs.Good.{Good};

use geometry::Record;
use pool_blocks::leaf::{count_marks, find_mark, mark_at};
use pool_entries::Block;

// The mark at place i below block b of a level; the blocks entered on the way are counted.
pub fn access_in(pool: &&[u8], level: u8, b: usize, i: usize, entered: &mut usize) -> u8
    requires tree { Good pool.now.now level b }
    requires place { (1 ≤ i) × (i ≤ marks_in level (shape_at pool.now.now level b)) × (entered.old + level < word_limit) }
    ensures { FoundIn pool.now.now level b i result entered.old entered.new }
{
    *entered += 1;
    if level == 0 {
        return mark_at(*pool, b, i);
    }
    let block = Block { pool: *pool, b };
    let seat = block.seat_by(Record::ENTRY_MARKS_AT, i);
    let child = block.link(seat.k);
    access_in(pool, level - 1, child, i - seat.before, entered)
}

// How many of the places 1 to i below block b bear c.
pub fn rank_in(pool: &&[u8], level: u8, b: usize, c: u8, i: usize) -> usize
    requires tree { Good pool.now.now level b × (c < most_alphabet) }
    requires place { i ≤ marks_in level (shape_at pool.now.now level b) }
    ensures { result ≡ rank c (flat level (shape_at pool.now.now level b)) i }
{
    if level == 0 {
        return count_marks(*pool, b, c, i);
    }
    let block = Block { pool: *pool, b };
    let seat = block.seat_by(Record::ENTRY_MARKS_AT, i);
    let offset = Record::ENTRY_COUNTS_AT + Record::WORD_SIZE * (c as usize);
    let passed = block.words_before(offset, seat.k);
    let child = block.link(seat.k);
    passed + rank_in(pool, level - 1, child, c, i - seat.before)
}

// The place of the j-th c below block b.
pub fn select_in(pool: &&[u8], level: u8, b: usize, c: u8, j: usize) -> usize
    requires tree { Good pool.now.now level b × (c < most_alphabet) }
    requires number { (1 ≤ j) × (j ≤ count c (flat level (shape_at pool.now.now level b)))
        × (marks_in level (shape_at pool.now.now level b) < word_limit) }
    ensures { result ≡ select c (flat level (shape_at pool.now.now level b)) j }
{
    if level == 0 {
        return find_mark(*pool, b, c, j);
    }
    let offset = Record::ENTRY_COUNTS_AT + Record::WORD_SIZE * (c as usize);
    let block = Block { pool: *pool, b };
    let seat = block.seat_by(offset, j);
    let passed = block.words_before(Record::ENTRY_MARKS_AT, seat.k);
    let child = block.link(seat.k);
    passed + select_in(pool, level - 1, child, c, j - seat.before)
}
