// Bytes and words of a pool, by their addresses. Each store says what it leaves alone.
ghost use Rattle.std.specs.Prelude.{◌+◌, ◌≤◌, ◌<◌, length};
ghost use Rattle.geometry.specs.Layout.{word_size};
ghost use Rattle.geometry.specs.Limits.{block_size};
ghost use Rattle.pool.specs.Words.{word_limit, WordAt, PutByte, PutWord, Moved, Cleared};

use geometry::Record;

// The word at an address, low byte first, as it is kept.
#[tactic(auto, unfolding(crate::specs::Bytes::word))]
pub(crate) fn u16_at(pool: &[u8], at: usize) -> u16
    requires { at + word_size ≤ length pool.now }
    ensures { WordAt pool.now at result }
{
    u16::from_le_bytes([pool[at], pool[at + 1]])
}

// The same, as a number to reckon with.
pub fn word(pool: &[u8], at: usize) -> usize
    requires { at + word_size ≤ length pool.now }
    ensures { WordAt pool.now at result }
{
    usize::from(u16_at(pool, at))
}

// Puts a byte at an address.
pub fn put_byte(pool: &mut [u8], at: usize, value: u8)
    requires { at < length pool.old }
    ensures { PutByte at value pool.old pool.new }
{
    pool[at] = value;
}

// Puts a word at an address, low byte first. Two stores, as a frame's eight bytes are put (protocol/src/lib.rt has the figure for those).
#[tactic(auto, unfolding(crate::specs::Bytes::word))]
pub(crate) fn put_u16(pool: &mut [u8], at: usize, value: u16)
    requires { at + word_size ≤ length pool.old }
    ensures { PutWord at value pool.old pool.new }
{
    let [low, high] = value.to_le_bytes();
    pool[at] = low;
    pool[at + 1] = high;
}

// The same, from a number to reckon with.
pub fn put_word(pool: &mut [u8], at: usize, value: usize)
    requires { (at + word_size ≤ length pool.old) × (value < word_limit) }
    ensures { PutWord at value pool.old pool.new }
{
    put_u16(pool, at, value as u16);
}

// Moves bytes, at most a block's, to where they may overlap the bytes that they were.
// No copy_within: that picks its direction by itself, and must-fail/move_turned, which turns it here, would have nothing to turn.
pub fn move_bytes(pool: &mut [u8], from: usize, to: usize, many: usize)
    requires { (from + many ≤ length pool.old) × (to + many ≤ length pool.old) × (many ≤ block_size) }
    ensures { Moved from to many pool.old pool.new }
{
    if to <= from {
        move_down(pool, from, to, many);
    } else {
        move_up(pool, from, to, many);
    }
}

// Moves bytes towards the front, the first of them first.
fn move_down(pool: &mut [u8], from: usize, to: usize, many: usize)
    requires { (to ≤ from) × (from + many ≤ length pool.old) }
    ensures { Moved from to many pool.old pool.new }
{
    for i in 0..many {
        pool[to + i] = pool[from + i];
    }
}

// Moves bytes towards the back. They are set aside first.
// No copy_within: it goes back byte by byte, and an insert takes up to 1.36 times as long with it (D41).
fn move_up(pool: &mut [u8], from: usize, to: usize, many: usize)
    requires { (from + many ≤ length pool.old) × (to + many ≤ length pool.old) × (many ≤ block_size) }
    ensures { Moved from to many pool.old pool.new }
{
    let mut aside = [0; Record::BLOCK_SIZE];
    aside[..many].copy_from_slice(&pool[from..from + many]);
    pool[to..to + many].copy_from_slice(&aside[..many]);
}

// Puts zeros from an address on.
pub fn clear_bytes(pool: &mut [u8], at: usize, many: usize)
    requires { at + many ≤ length pool.old }
    ensures { Cleared at many pool.old pool.new }
{
    pool[at..at + many].fill(0);
}
