// Marks put into a name's tree: the way down to a leaf, and back up it with what became of each block.
#![tactic(auto)]

mod descent;
mod insert;
mod tree;

pub use tree::insert_in_tree;
