// One entry of a branch written, or adjusted by a mark. A child and its summary are two parameters: they come from two steps at each call,
// and a struct of both would be taken apart at once.
ghost use Rattle.std.specs.Prelude.{◌+◌, ◌*◌, ◌≤◌, ◌<◌, length};
ghost use Rattle.geometry.specs.Layout.{most_branch, word_size};
ghost use Rattle.geometry.specs.Limits.{most_alphabet};
ghost use Rattle.pool.specs.Blocks.{marks_below, count_below};
ghost use Rattle.pool.specs.Bytes.{shares};
ghost use Rattle.pool.specs.Words.{word_limit};
ghost use Rattle.pool_entries.specs.Entries.{PutCounts, PutEntry, PutMark, AddMark, TakeMark};

use crate::reads::entry_at;
use crate::{Block, Summary};
use geometry::Record;
use pool::put_word;

// Writes all of entry k: the child's block and its summary.
pub fn set_entry(pool: &mut [u8], b: usize, k: usize, child: usize, summary: Summary)
    requires { (b < shares pool.old) × (k < most_branch) × (child < word_limit) }
    ensures { PutEntry b k child summary pool.old pool.new }
{
    let at = entry_at(b, k);
    put_word(pool, at, child);
    put_word(
        pool,
        at + Record::ENTRY_MARKS_AT,
        usize::from(summary.marks),
    );
    put_counts(pool, at + Record::ENTRY_COUNTS_AT, summary.counts);
}

// The words of all symbols' counts, from an address on.
fn put_counts(pool: &mut [u8], at: usize, counts: [u16; Record::MOST_ALPHABET])
    requires { at + word_size * most_alphabet ≤ length pool.old }
    ensures { PutCounts at most_alphabet counts pool.old pool.new }
{
    for (c, count) in counts.iter().enumerate() {
        put_word(pool, at + Record::WORD_SIZE * c, usize::from(*count));
    }
}

// One more mark below child k, a c. With `take_mark` it is no twin to join: one asks for room, the other that a mark is there.
pub fn add_mark(pool: &mut [u8], b: usize, k: usize, c: usize)
    requires inside { (b < shares pool.old) × (k < most_branch) × (c < most_alphabet) }
    requires room { (marks_below pool.old b k + 1 < word_limit) × (count_below pool.old b k c + 1 < word_limit) }
    ensures { AddMark b k c pool.old pool.new }
{
    let block = Block { pool, b };
    let marks = block.marks_below(k) + 1;
    let count = block.count_below(k, c) + 1;
    put_mark(pool, b, k, c, marks, count);
}

// One mark less below child k, a c.
pub fn take_mark(pool: &mut [u8], b: usize, k: usize, c: usize)
    requires inside { (b < shares pool.old) × (k < most_branch) × (c < most_alphabet) }
    requires there { (0 < marks_below pool.old b k) × (0 < count_below pool.old b k c) }
    ensures { TakeMark b k c pool.old pool.new }
{
    let block = Block { pool, b };
    let marks = block.marks_below(k) - 1;
    let count = block.count_below(k, c) - 1;
    put_mark(pool, b, k, c, marks, count);
}

// The two words of entry k that a mark c counts in.
fn put_mark(pool: &mut [u8], b: usize, k: usize, c: usize, marks: usize, count: usize)
    requires inside { (b < shares pool.old) × (k < most_branch) × (c < most_alphabet) }
    requires small { (marks < word_limit) × (count < word_limit) }
    ensures { PutMark b k c marks count pool.old pool.new }
{
    let at = entry_at(b, k);
    put_word(pool, at + Record::ENTRY_MARKS_AT, marks);
    put_word(
        pool,
        at + Record::ENTRY_COUNTS_AT + Record::WORD_SIZE * c,
        count,
    );
}
