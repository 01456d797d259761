// Entries of blocks moved: into a leaf or a branch, out of it, and from one to another; and blocks emptied.
#![tactic(auto)]

pub mod branch;
pub mod leaf;
mod moves;

pub use moves::{empty_block, join, share_out, unit_of};
