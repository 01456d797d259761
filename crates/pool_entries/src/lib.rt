// The entries of a branch, one at a time, which child takes a place, how many entries a block may have, and its summary, which is what its
// parent's entry says of it.
#![tactic(auto)]

ghost use Rattle.std.specs.Prelude.{◌<◌};
ghost use Rattle.pool.specs.Bytes.{shares};

use geometry::Record;

mod choice;
mod reads;
mod sizes;
mod stores;
mod sums;

pub use sizes::{least_entries, most_entries};
pub use stores::{add_mark, set_entry, take_mark};

// A block of a pool that is lent to be read, by its number. Its level is told by whoever comes down to it, as half of the methods ask for
// none. What writes takes the pool itself: a `&mut` in a struct would have each contract say that the number stays, and edits of two blocks
// lend the pool once.
#[derive(Clone, Copy)]
pub struct Block<'a> {
    pub pool: &'a [u8],
    pub b: usize,
    // it is one of the pool's
    pub ghost inside: { b < shares pool.now },
}

// How many marks a block has, and how many of them are each symbol.
#[derive(Clone, Copy)]
pub struct Summary {
    pub marks: u16,
    pub counts: [u16; Record::MOST_ALPHABET],
}

// A child's number, and what the measured words of the children before it add up to.
#[derive(Clone, Copy)]
pub struct Seat {
    pub k: usize,
    pub before: usize,
}
