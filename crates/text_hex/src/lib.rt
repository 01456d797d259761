// Frames and answers as lines of sixteen hexadecimal digits. Both directions go by constant tables.
#![tactic(auto)]

mod digit;
mod read;
mod tables;
mod write;

pub use read::{Bad, read_line};
pub use write::{LINE_SIZE, write_line};
