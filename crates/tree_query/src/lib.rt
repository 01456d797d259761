// Queries of a tree in the pool: they go down from the root, one block a level.
#![tactic(auto)]

mod by_name;
mod descent;

pub use by_name::{access, count, rank, select};

// The mark at a place, and how many blocks were entered on the way to it.
#[derive(Clone, Copy)]
pub struct Found {
    pub mark: u8,
    pub blocks: usize,
}
