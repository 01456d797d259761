// A branch's entries moved: their contracts speak of the list of entries, each with its link and all its counts.
ghost use Rattle.std.specs.Prelude.{◌≡◌, ◌≤◌, ◌<◌};
ghost use Rattle.geometry.specs.Layout.{most_branch};
ghost use Rattle.pool.specs.Blocks.{entries};
ghost use Rattle.pool.specs.Bytes.{shares};
ghost use Rattle.pool_blocks.specs.Contents.{BranchAt, entry_list};
ghost use Rattle.pool_blocks.specs.Branches.{EntryOpened, EntryRemoved};
ghost use Rattle.pool_blocks.specs.Nodes.{EntriesCut};

use crate::moves::{close_gap, cut_off, open_gap};
use geometry::Record;

// Makes room for entry k; its bytes are the caller's to write.
pub fn open_entry(pool: &mut [u8], b: usize, k: usize)
    requires { BranchAt pool.old b × (k ≤ entries pool.old b) × (entries pool.old b < most_branch) }
    ensures { EntryOpened b k pool.old pool.new }
{
    open_gap(pool, b, Record::ENTRY_SIZE, k);
}

// Takes entry k out.
pub fn remove_entry(pool: &mut [u8], b: usize, k: usize)
    requires { BranchAt pool.old b × (k < entries pool.old b) }
    ensures { EntryRemoved b k pool.old pool.new }
{
    close_gap(pool, b, Record::ENTRY_SIZE, k);
}

// Moves the entries behind the first `cut` to the block `new`.
pub fn cut_branch(pool: &mut [u8], b: usize, new: usize, cut: usize)
    requires { BranchAt pool.old b × (new < shares pool.old) × (b ≡ new → ⊥) × (cut ≤ entries pool.old b) }
    ensures { EntriesCut entry_list b new cut pool.old pool.new }
{
    cut_off(pool, b, new, Record::ENTRY_SIZE, cut);
}
