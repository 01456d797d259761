// What a block's own bytes say of its marks, and whether its parent's entry repeats it.
ghost use Rattle.std.specs.Prelude.{◌≡◌, ◌≤◌, ◌<◌, length};
ghost use Rattle.geometry.specs.Layout.{most_leaf, least_branch, most_branch};
ghost use Rattle.geometry.specs.Limits.{block_size, most_alphabet};
ghost use Rattle.lists.specs.Sums.{sum_below};
ghost use Rattle.pool.specs.Blocks.{entries, leaf_marks, count_below};
ghost use Rattle.pool.specs.Bytes.{shares};
ghost use Rattle.shape.specs.Sizes.{one_to_a_byte, least, most};
ghost use Rattle.pool_check.specs.Parts.{Repeats, Matches, Padded, Claim};
ghost use Rattle.pool_check.specs.Says.{Says};

use crate::lent::Tree;
use geometry::Record;
use pool::block_at;
use pool_entries::Block;
use sequence::count_in;

// What stands behind a leaf's marks where they are filled up.
const NO_SYMBOL: u8 = 255;

impl Tree<'_> {
    // Whether entry k of a branch is the summary of the block `child`, of a level; and of a leaf whether its marks are below the alphabet's
    // size.
    pub fn repeats(&self, level: usize, b: usize, k: usize, child: usize) -> bool
        requires parent { (b < shares self.now.pool.bytes.now) × (k < most_branch) }
        requires child { child < shares self.now.pool.bytes.now }
        requires size { (least one_to_a_byte level ≤ entries self.now.pool.bytes.now child)
            × (entries self.now.pool.bytes.now child ≤ most one_to_a_byte level) }
        ensures { Says result (Matches self.now.pool.bytes.now self.now.alphabet level b k child) }
    {
        if level == 0 {
            self.leaf_repeats(b, k, child)
        } else {
            branch_repeats(self.pool.bytes, b, k, child)
        }
    }

    // A leaf by the counts that the entry claims, which must add up to its size: only symbols that it says are there are counted, and none
    // behind the last of them.
    fn leaf_repeats(&self, b: usize, k: usize, leaf: usize) -> bool
        requires parent { (b < shares self.now.pool.bytes.now) × (k < most_branch) }
        requires leaf { (leaf < shares self.now.pool.bytes.now) × (entries self.now.pool.bytes.now leaf ≤ most_leaf) }
        ensures { Says result (Matches self.now.pool.bytes.now self.now.alphabet 0 b k leaf) }
    {
        let pool = self.pool.bytes;
        let parent = Block { pool, b };
        let leaf = Block { pool, b: leaf };
        // read before the loop: read in it, it made the whole check a fifth slower
        let alphabet = self.alphabet;
        let many = leaf.entry_count();
        if parent.marks_below(k) != many || all_claimed(&parent, k) != many {
            return false;
        }
        let marks = padded(&leaf);
        let mut left = many;
        let mut c = 0;
        // A `for` over the symbols, left where nothing is left, makes the whole check slower by 13 percent: 4,800 ns and not 4,250.
        while left > 0 {
            let told = parent.count_below(k, c);
            if !claim_holds(&marks, c, told, alphabet) {
                return false;
            }
            left -= told;
            c += 1;
        }
        true
    }
}

// How many marks an entry claims, all symbols together.
fn all_claimed(parent: &Block, k: usize) -> usize
    requires { k < most_branch }
    ensures { result ≡ sum_below most_alphabet (count_below parent.now.pool.now parent.now.b k) }
{
    let mut sum = 0;
    for c in 0..Record::MOST_ALPHABET {
        sum += parent.count_below(k, c);
    }
    sum
}

// A leaf's marks, filled up to a block's length with a number that is no symbol. A count over them has no remainder that the compiler would
// count one by one. The leaf's size and the place are bytes, so that sixteen are filled at once; a copy of the marks alone, by the library,
// took 2 percent more instructions of the whole check.
fn padded(leaf: &Block) -> [u8; Record::BLOCK_SIZE]
    requires { entries leaf.now.pool.now leaf.now.b ≤ most_leaf }
    ensures { Padded (leaf_marks leaf.now.pool.now leaf.now.b) result }
{
    let at = block_at(leaf.b);
    let behind = Record::BLOCK_SIZE as u8 - leaf.pool[at + Record::COUNT_AT];
    let mut marks = [0u8; Record::BLOCK_SIZE];
    let mut left = Record::BLOCK_SIZE as u8;
    for i in 0..Record::BLOCK_SIZE {
        let mut mark = leaf.pool[at + i];
        if left <= behind {
            mark = NO_SYMBOL;
        }
        marks[i] = mark;
        left -= 1;
    }
    marks
}

// Whether as many of the marks are c as told, and c is below the alphabet's size; nothing is counted where none are told.
fn claim_holds(marks: &[u8], c: usize, told: usize, alphabet: u8) -> bool
    requires { (length marks.now ≡ block_size) × (c < most_alphabet) }
    ensures { Says result (Claim marks.now alphabet c told) }
{
    told == 0
        || c < usize::from(alphabet) && told == count_in(marks, 0, Record::BLOCK_SIZE, c as u8)
}

// A branch, by adding up its entries. One test at the end, and no way out of the loop.
fn branch_repeats(pool: &[u8], b: usize, k: usize, child: usize) -> bool
    requires parent { (b < shares pool.now) × (k < most_branch) }
    requires child { (child < shares pool.now) × (least_branch ≤ entries pool.now child)
        × (entries pool.now child ≤ most_branch) }
    ensures { Says result (Repeats pool.now 1 b k child) }
{
    let parent = Block { pool, b };
    let child = Block { pool, b: child };
    let mut same = parent.marks_below(k) == child.own_marks(1);
    for c in 0..Record::MOST_ALPHABET {
        same &= parent.count_below(k, c) == child.own_count(1, c);
    }
    same
}
