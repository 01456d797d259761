// The pool's bytes.
#![tactic(auto)]

mod bytes;
mod places;
mod records;

pub use bytes::{clear_bytes, move_bytes, put_byte, put_word, word};
pub use places::{block_at, record_at, shares_of};
pub use records::{read_record, write_record};
