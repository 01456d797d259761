// Which child of a branch takes a place, by the words that the branch's entries have at an offset.
ghost use Rattle.std.specs.Prelude.{◌≡◌, ◌+◌, ◌≤◌, ◌<◌};
ghost use Rattle.geometry.specs.Layout.{least_branch, most_branch, entry_size, word_size};
ghost use Rattle.lists.specs.Sums.{sum_below};
ghost use Rattle.pool.specs.Blocks.{entries};
ghost use Rattle.pool_entries.specs.Summaries.{words_at};
ghost use Rattle.pool_entries.specs.Seats.{Seated};

use crate::{Block, Seat};
use geometry::Record;

impl Block<'_> {
    // The child that takes i: the first up to which the words add up to i or more, or the last. So 0 goes to the first child, and a child's
    // last place stays with that child.
    #[tactic(auto, unfolding(lists::specs::Sums::sum_below))]
    pub fn seat_by(&self, offset: usize, i: usize) -> Seat
        requires inside { offset + word_size ≤ entry_size }
        requires branch { (least_branch ≤ entries self.now.pool.now self.now.b) × (entries self.now.pool.now self.now.b ≤ most_branch) }
        ensures { Seated (words_at self.now.pool.now self.now.b offset) (entries self.now.pool.now self.now.b) i result }
    {
        let first = self.entry_word(0, offset);
        let both = first + self.entry_word(1, offset);
        // where there are two children no number is past the limit
        let limit = if self.entry_count() == Record::MOST_BRANCH {
            both
        } else {
            i
        };
        if i > limit {
            Seat { k: 2, before: both }
        } else if i > first {
            Seat {
                k: 1,
                before: first,
            }
        } else {
            Seat { k: 0, before: 0 }
        }
    }

    // What the words of the first k entries add up to.
    #[tactic(auto, unfolding(lists::specs::Sums::sum_below))]
    pub fn words_before(&self, offset: usize, k: usize) -> usize
        requires { (k ≤ most_branch) × (offset + word_size ≤ entry_size) }
        ensures { result ≡ sum_below k (words_at self.now.pool.now self.now.b offset) }
    {
        let first = self.entry_word(0, offset);
        let both = first + self.entry_word(1, offset);
        // plain ifs, of which the compiler makes conditional moves: with a match, or with else, rank took 1.4 times as long
        if k > 2 {
            return both + self.entry_word(2, offset);
        }
        let mut sum = 0;
        if k > 0 {
            sum = first;
        }
        if k > 1 {
            sum = both;
        }
        sum
    }
}
