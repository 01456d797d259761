// What a branch says of itself and of each child. That an index is in its range stays a clause, here and elsewhere: a type for each index
// would have to be taken apart for every address.
ghost use Rattle.std.specs.Prelude.{◌≡◌, ◌+◌, ◌≤◌, ◌<◌};
ghost use Rattle.geometry.specs.Layout.{most_branch, entry_size, word_size};
ghost use Rattle.geometry.specs.Limits.{most_alphabet};
ghost use Rattle.pool.specs.Blocks.{entries, entry_at, link as link_of, marks_below, count_below};
ghost use Rattle.pool.specs.Words.{address_limit};
ghost use Rattle.pool_entries.specs.Summaries.{Is, words_at};

use crate::Block;
use geometry::Record;
use pool::{block_at, word};

// Where entry k of a branch stands.
pub fn entry_at(b: usize, k: usize) -> usize
    requires { entry_at b k < address_limit }
    ensures { result ≡ entry_at b k }
{
    block_at(b) + Record::ENTRY_SIZE * k
}

impl Block<'_> {
    // The word that entry k has at an offset.
    pub(crate) fn entry_word(&self, k: usize, offset: usize) -> usize
        requires { (k < most_branch) × (offset + word_size ≤ entry_size) }
        ensures { Is (words_at self.now.pool.now self.now.b offset k) result }
    {
        word(self.pool, entry_at(self.b, k) + offset)
    }

    // How many entries a block has.
    pub fn entry_count(&self) -> usize
        ensures { Is (entries self.now.pool.now self.now.b) result }
    {
        word(self.pool, block_at(self.b) + Record::COUNT_AT)
    }

    // The block of child k.
    pub fn link(&self, k: usize) -> usize
        requires { k < most_branch }
        ensures { Is (link_of self.now.pool.now self.now.b k) result }
    {
        word(self.pool, entry_at(self.b, k))
    }

    // How many marks entry k says are below child k.
    pub fn marks_below(&self, k: usize) -> usize
        requires { k < most_branch }
        ensures { Is (marks_below self.now.pool.now self.now.b k) result }
    {
        self.entry_word(k, Record::ENTRY_MARKS_AT)
    }

    // How many of them it says are the symbol c.
    pub fn count_below(&self, k: usize, c: usize) -> usize
        requires { (k < most_branch) × (c < most_alphabet) }
        ensures { Is (count_below self.now.pool.now self.now.b k c) result }
    {
        word(
            self.pool,
            entry_at(self.b, k) + Record::ENTRY_COUNTS_AT + Record::WORD_SIZE * c,
        )
    }
}
