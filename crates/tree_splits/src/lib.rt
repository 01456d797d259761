// What an insert does to single blocks: a leaf takes a mark, a branch takes up that a child was split, and a new root stands above two
// halves. A full block is split, and only then a block is taken from the map of holders: an edit answers the new block, which stands behind
// the one that was split, if there is one.
#![tactic(auto)]

mod branches;
mod leaves;
mod root;

pub use branches::take_up;
pub use leaves::insert_in_leaf;
pub use root::grow_root;

// A tree in the pool: its root's level and its root block.
#[derive(Clone, Copy)]
pub struct Rooted {
    pub level: usize,
    pub root: usize,
}
