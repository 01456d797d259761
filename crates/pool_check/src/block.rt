// One block of a tree by itself: whether it may be entered, and a leaf's marks.
ghost use Rattle.std.specs.Prelude.{◌≡◌, ◌+◌, ◌≤◌, ◌<◌, [], ◌∷◌};
ghost use Rattle.geometry.specs.Layout.{most_leaf};
ghost use Rattle.lists.specs.Items.{AllBelow};
ghost use Rattle.pool.specs.Blocks.{entries, leaf_marks};
ghost use Rattle.pool.specs.Bytes.{shares};
ghost use Rattle.pool.specs.Sound.{SoundBlock};
ghost use Rattle.shape.specs.Fill.{root_least};
ghost use Rattle.shape.specs.Sizes.{one_to_a_byte, most};
ghost use Rattle.pool_check.specs.Walks.{Walked};
ghost use Rattle.pool_check.specs.Parts.{MarksFit};
ghost use Rattle.pool_check.specs.Says.{Says};

use crate::lent::Tree;
use geometry::Record;
use pool::{block_at, shares_of};
use pool_entries::{Block, most_entries};

// The entries that a root of a level has at least.
pub fn least_of_root(level: usize) -> usize
    ensures { result ≡ root_least level }
{
    if level == 0 { 0 } else { Record::LEAST_BRANCH }
}

impl Tree<'_> {
    // Whether a block is one of the pool's that nobody holds yet, of the right form and number of entries. It is then marked.
    pub fn enter(
        &self,
        level: usize,
        b: usize,
        fewest: usize,
        map: &mut [u8; Record::MOST_SHARES],
    ) -> bool
        ensures { Walked result (SoundBlock self.now.pool.bytes.now fewest level b) self.now.holder (b ∷ [])
            map.old map.new }
    {
        let pool = self.pool.bytes;
        let enters = b < shares_of(pool)
            && map[b] == 0
            && pool[block_at(b) + Record::FORM_AT] == Record::FORM_MARKS
            && (fewest..=most_entries(level)).contains(&Block { pool, b }.entry_count());
        if enters {
            map[b] = self.holder;
        }
        enters
    }

    // Whether all marks of a root that is a leaf are below the alphabet's size.
    pub fn root_fits(&self, level: usize, b: usize) -> bool
        requires { (b < shares self.now.pool.bytes.now) × (entries self.now.pool.bytes.now b ≤ most one_to_a_byte level) }
        ensures { Says result (MarksFit self.now.pool.bytes.now self.now.alphabet level b) }
    {
        let root = Block {
            pool: self.pool.bytes,
            b,
        };
        level != 0 || marks_fit(&root, self.alphabet)
    }
}

// Whether all marks of a leaf are below the alphabet's size.
fn marks_fit(leaf: &Block, alphabet: u8) -> bool
    requires { entries leaf.now.pool.now leaf.now.b ≤ most_leaf }
    ensures { Says result (AllBelow alphabet (leaf_marks leaf.now.pool.now leaf.now.b)) }
{
    let at = block_at(leaf.b);
    let end = at + leaf.entry_count();
    leaf.pool[at..end].iter().all(|mark| *mark < alphabet)
}
