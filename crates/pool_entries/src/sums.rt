// The summary of a block, from its own bytes: a leaf's marks are counted, a branch's entries added up.
ghost use Rattle.std.specs.Prelude.{◌≡◌, ◌≤◌, ◌<◌};
ghost use Rattle.geometry.specs.Limits.{most_alphabet};
ghost use Rattle.pool.specs.Blocks.{entries};
ghost use Rattle.pool.specs.Trees.{own_marks, own_count};
ghost use Rattle.shape.specs.Sizes.{one_to_a_byte, most};
ghost use Rattle.pool_entries.specs.Summaries.{SummaryOf, SmallSums};

use crate::{Block, Summary};
use geometry::Record;
use pool::block_at;
use sequence::count_in;
use std::array;

impl Block<'_> {
    // The summary of a block of a level.
    pub fn summary(&self, level: usize) -> Summary
        requires { (entries self.now.pool.now self.now.b ≤ most one_to_a_byte level) × SmallSums self.now.pool.now level self.now.b }
        ensures { SummaryOf self.now.pool.now level self.now.b result }
    {
        Summary {
            marks: self.own_marks(level) as u16,
            counts: array::from_fn(|symbol| self.own_count(level, symbol) as u16),
        }
    }

    // How many marks a block says it has: a leaf by its size, a branch by its entries.
    pub fn own_marks(&self, level: usize) -> usize
        requires { entries self.now.pool.now self.now.b ≤ most one_to_a_byte level }
        ensures { result ≡ own_marks self.now.pool.now level self.now.b }
    {
        let many = self.entry_count();
        if level == 0 {
            many
        } else {
            self.words_before(Record::ENTRY_MARKS_AT, many)
        }
    }

    // How many of them are a symbol: those that stand in a leaf, those that a branch's entries say.
    #[tactic(auto, unfolding(pool::specs::Blocks::leaf_marks))]
    pub fn own_count(&self, level: usize, symbol: usize) -> usize
        requires block { entries self.now.pool.now self.now.b ≤ most one_to_a_byte level }
        requires inside { symbol < most_alphabet }
        ensures { result ≡ own_count self.now.pool.now level self.now.b symbol }
    {
        let many = self.entry_count();
        if level == 0 {
            let at = block_at(self.b);
            count_in(self.pool, at, at + many, symbol as u8)
        } else {
            self.words_before(Record::ENTRY_COUNTS_AT + Record::WORD_SIZE * symbol, many)
        }
    }
}
