// Entries of a block moved, `unit` bytes each: said once for leaves and branches.
ghost use Rattle.std.specs.Prelude.{◌≡◌, ◌+◌, ◌*◌, ◌≤◌, ◌<◌, min, max};
ghost use Rattle.geometry.specs.Layout.{count_at};
ghost use Rattle.pool.specs.Blocks.{entries};
ghost use Rattle.pool.specs.Bytes.{shares, block_at};
ghost use Rattle.pool.specs.Words.{word_limit, PutWord, Moved};
ghost use Rattle.pool_blocks.specs.Contents.{Room, Movable, Apart, Counted, unit_of};
ghost use Rattle.pool_blocks.specs.Moves.{PutTrailer, Emptied, Opened, Closed, CutOff, Joined, Refilled, SharedOut};

use geometry::Record;
use pool::{block_at, move_bytes, put_byte, put_word};
use pool_entries::Block;

// Moves so many entries, from number i of the block `from` on, to the block `to`, from number j on.
fn move_entries(
    pool: &mut [u8],
    unit: usize,
    from: usize,
    i: usize,
    to: usize,
    j: usize,
    many: usize,
)
    requires { Movable pool.old unit from i to j many }
    ensures { Moved (block_at from + unit * i) (block_at to + unit * j) (unit * many) pool.old pool.new }
{
    let source = block_at(from) + unit * i;
    let target = block_at(to) + unit * j;
    move_bytes(pool, source, target, unit * many);
}

// Writes a block's number of entries.
fn put_entry_count(pool: &mut [u8], b: usize, many: usize)
    requires { (b < shares pool.old) × (many < word_limit) }
    ensures { PutWord (block_at b + count_at) many pool.old pool.new }
{
    put_word(pool, block_at(b) + Record::COUNT_AT, many);
}

// Makes room for one entry at number k; its bytes are the caller's to write.
pub fn open_gap(pool: &mut [u8], b: usize, unit: usize, k: usize)
    requires { (b < shares pool.old) × (k ≤ entries pool.old b) × Room unit (entries pool.old b + 1) }
    ensures { Opened unit b k pool.old pool.new }
{
    let many = Block { pool, b }.entry_count();
    move_entries(pool, unit, b, k, b, k + 1, many - k);
    put_entry_count(pool, b, many + 1);
}

// Takes entry k out.
pub fn close_gap(pool: &mut [u8], b: usize, unit: usize, k: usize)
    requires { (b < shares pool.old) × (k < entries pool.old b) × Room unit (entries pool.old b) }
    ensures { Closed unit b k pool.old pool.new }
{
    let many = Block { pool, b }.entry_count();
    move_entries(pool, unit, b, k + 1, b, k, many - (k + 1));
    put_entry_count(pool, b, many - 1);
}

// Moves the entries from number `cut` on to the block `new`.
pub fn cut_off(pool: &mut [u8], b: usize, new: usize, unit: usize, cut: usize)
    requires { Apart pool.old b new × (cut ≤ entries pool.old b) × Room unit (entries pool.old b) }
    ensures { CutOff unit b new cut pool.old pool.new }
{
    let many = Block { pool, b }.entry_count();
    move_entries(pool, unit, b, cut, new, 0, many - cut);
    put_entry_count(pool, b, cut);
    put_trailer(pool, new, many - cut);
}

// Writes a block's form and its number of entries.
fn put_trailer(pool: &mut [u8], b: usize, many: usize)
    requires { (b < shares pool.old) × (many < word_limit) }
    ensures { PutTrailer b many pool.old pool.new }
{
    put_byte(pool, block_at(b) + Record::FORM_AT, Record::FORM_MARKS);
    put_entry_count(pool, b, many);
}

// Makes the block b one without entries: a leaf without marks, or a branch without children.
pub fn empty_block(pool: &mut [u8], b: usize)
    requires { b < shares pool.old }
    ensures { Emptied b pool.old pool.new }
{
    put_trailer(pool, b, 0);
}

// How many bytes an entry of a block of a level takes: a leaf's are its marks.
pub fn unit_of(level: usize) -> usize
    ensures { result ≡ unit_of level }
{
    if level == 0 { 1 } else { Record::ENTRY_SIZE }
}

// Puts the right block's entries behind the left block's.
pub fn join(pool: &mut [u8], left: usize, right: usize, unit: usize)
    requires { (left < shares pool.old) × (right < shares pool.old)
        × Room unit (entries pool.old left + entries pool.old right) }
    ensures { Joined unit left right pool.old pool.new }
{
    let here = Block { pool, b: left }.entry_count();
    let there = Block { pool, b: right }.entry_count();
    move_entries(pool, unit, right, 0, left, here, there);
    put_entry_count(pool, left, here + there);
}

// Shares two blocks' entries out: the left one gets half of them.
pub fn share_out(pool: &mut [u8], left: usize, right: usize, unit: usize)
    requires { Apart pool.old left right × Room unit (entries pool.old left) × Room unit (entries pool.old right) }
    ensures { SharedOut unit left right pool.old pool.new }
{
    let here = Block { pool, b: left }.entry_count();
    let there = Block { pool, b: right }.entry_count();
    let half = (here + there) / 2;
    refill(pool, left, right, unit, here, there, half);
    put_entry_count(pool, left, half);
    put_entry_count(pool, right, here + there - half);
}

// Moves entries between two blocks, so that the left one has the first `many` of all: from the right block's front behind the left block's,
// or from the left block's end before the right block's.
fn refill(
    pool: &mut [u8],
    left: usize,
    right: usize,
    unit: usize,
    here: usize,
    there: usize,
    many: usize,
)
    requires blocks { Counted pool.old left right here there × Room unit (entries pool.old left)
        × Room unit (entries pool.old right) }
    requires between { (min here there ≤ many) × (many ≤ max here there) }
    ensures { Refilled unit left right many pool.old pool.new }
{
    if here <= many {
        let moved = many - here;
        move_entries(pool, unit, right, 0, left, here, moved);
        move_entries(pool, unit, right, moved, right, 0, there - moved);
    } else {
        let moved = here - many;
        move_entries(pool, unit, right, 0, right, moved, there);
        move_entries(pool, unit, left, many, right, 0, moved);
    }
}
