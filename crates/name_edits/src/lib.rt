// Marks put into a name and taken out of it. No caller has to know about blocks.
#![tactic(auto)]

mod edits;

pub use edits::{delete, insert};
