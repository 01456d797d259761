// A branch takes up what an edit made of a child. Entries move with all that they say.
ghost use Rattle.std.specs.Prelude.{◌≡◌, ◌≤◌, ◌<◌, Some};
ghost use Rattle.geometry.specs.Layout.{most_branch};
ghost use Rattle.pool.specs.Blocks.{entries};
ghost use Rattle.pool.specs.Bytes.{shares};
ghost use Rattle.pool.specs.Words.{word_limit};
ghost use Rattle.pool_blocks.specs.Contents.{BranchAt};
ghost use Rattle.tree_splits.specs.Grafts.{EntryPut, BranchSplit, GraftReady, Grafted, SplitReady, TakenUp};

use geometry::Record;
use pool_blocks::branch::{cut_branch, open_entry};
use pool_entries::{Block, Summary, set_entry};
use pool_holders::take_block;

// Takes up that an insert split child k of the branch b: there are two entries in its place. The level is the child's.
pub fn take_up(
    pool: &mut [u8],
    level: usize,
    b: usize,
    k: usize,
    child: usize,
    new: usize,
    map: &mut [u8],
    holder: u8,
) -> Option<usize>
    requires { SplitReady pool.old map.old level b k child new holder }
    ensures { TakenUp level b k child holder (Some new) result pool.old pool.new
        map.old map.new }
{
    let left = Block { pool, b: child }.summary(level);
    let right = Block { pool, b: new }.summary(level);
    set_entry(pool, b, k, child, left);
    graft_entry(pool, b, k + 1, new, right, map, holder)
}

// Puts an entry in as number k of a branch, which is split if it is full.
fn graft_entry(
    pool: &mut [u8],
    b: usize,
    k: usize,
    child: usize,
    summary: Summary,
    map: &mut [u8],
    holder: u8,
) -> Option<usize>
    requires { GraftReady pool.old map.old b k child holder }
    ensures { Grafted b k child holder summary result pool.old pool.new map.old map.new }
{
    let block = Block { pool, b };
    if block.entry_count() < Record::MOST_BRANCH {
        put_entry(pool, b, k, child, summary);
        return None;
    }
    let new = take_block(map, holder);
    split_branch(pool, b, new, k, child, summary);
    Some(new)
}

// Puts an entry in as number k of a full branch, and half of its entries into the block `new`.
fn split_branch(pool: &mut [u8], b: usize, new: usize, k: usize, child: usize, summary: Summary)
    requires full { (b < shares pool.old) × (entries pool.old b ≡ most_branch) }
    requires other { (new < shares pool.old) × (b ≡ new → ⊥) }
    requires place { (k ≤ most_branch) × (child < word_limit) }
    ensures { BranchSplit b new k child summary pool.old pool.new }
{
    if k < Record::LEAST_BRANCH {
        cut_branch(pool, b, new, Record::LEAST_BRANCH - 1);
        put_entry(pool, b, k, child, summary);
    } else {
        cut_branch(pool, b, new, Record::LEAST_BRANCH);
        put_entry(pool, new, k - Record::LEAST_BRANCH, child, summary);
    }
}

// Puts an entry in as number k of a branch with room.
pub fn put_entry(pool: &mut [u8], b: usize, k: usize, child: usize, summary: Summary)
    requires { BranchAt pool.old b × (k ≤ entries pool.old b) × (entries pool.old b < most_branch) × (child < word_limit) }
    ensures { EntryPut b k child summary pool.old pool.new }
{
    open_entry(pool, b, k);
    set_entry(pool, b, k, child, summary);
}
