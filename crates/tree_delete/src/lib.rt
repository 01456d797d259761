// Marks taken out of a name's tree. A node that is left short is joined with its neighbour or shares its entries; a block that is no longer
// used is free again at once.
#![tactic(auto)]

mod deletes;
mod mends;
mod nodes;
mod pairs;
mod tree;

pub use tree::{Removed, delete_in_tree};
