// The sizes and limits that the rules set.
ghost use Rattle.std.specs.Prelude.{◌≡◌};
ghost use Rattle.geometry.specs.Limits.{all_limits};

use crate::Record;

impl Record {
    // Pools and shares.
    // bytes of a block
    pub const BLOCK_SIZE: usize = 128;
    // bytes of the directory, which stands before the first block
    pub const DIRECTORY_SIZE: usize = 512;
    // bytes of the shortest pool: one share
    pub const SHORTEST_POOL: usize = Record::DIRECTORY_SIZE + Record::BLOCK_SIZE;
    // bytes of the longest pool
    pub const LONGEST_POOL: usize = 65536;
    // shares of the longest pool
    pub const MOST_SHARES: usize = (Record::LONGEST_POOL - Record::DIRECTORY_SIZE)
        / Record::BLOCK_SIZE;
    // marks that one share promises room for
    pub const MARKS_PER_SHARE: usize = 24;
    // marks that one name can hold at most
    pub const MOST_MARKS: usize = Record::MARKS_PER_SHARE * Record::MOST_SHARES;
    // the depth rule's divisor: m is the larger of 1 and n divided by this
    pub const MARKS_PER_DEPTH: usize = 48;

    // Names and alphabets.
    // names in a pool: 0 to one less
    pub const NAMES: usize = 16;
    // the smallest alphabet
    pub const LEAST_ALPHABET: usize = 2;
    // the largest alphabet
    pub const MOST_ALPHABET: usize = 16;

    // Frames.
    // bytes of a command and of an answer
    pub const FRAME_SIZE: usize = 8;
    // bytes of commands that one call takes at most
    pub const LONGEST_COMMANDS: usize = 8192;
    // bytes of the pool that the first program formats
    pub const PROGRAM_POOL: usize = 16384;

    // Lines of Fortran.
    // the column that tells a continuation; statements start after it
    pub const CONTINUATION_COLUMN: usize = 6;
    // the last column that is read
    pub const LAST_COLUMN: usize = 72;

    // All of these numbers, so that a contract can say what each is.
    pub fn limits() -> Limits
        ensures { result ≡ all_limits }
    {
        Limits {
            block_size: Record::BLOCK_SIZE,
            directory_size: Record::DIRECTORY_SIZE,
            shortest_pool: Record::SHORTEST_POOL,
            longest_pool: Record::LONGEST_POOL,
            most_shares: Record::MOST_SHARES,
            marks_per_share: Record::MARKS_PER_SHARE,
            most_marks: Record::MOST_MARKS,
            marks_per_depth: Record::MARKS_PER_DEPTH,
            names: Record::NAMES,
            least_alphabet: Record::LEAST_ALPHABET,
            most_alphabet: Record::MOST_ALPHABET,
            frame_size: Record::FRAME_SIZE,
            longest_commands: Record::LONGEST_COMMANDS,
            program_pool: Record::PROGRAM_POOL,
            continuation_column: Record::CONTINUATION_COLUMN,
            last_column: Record::LAST_COLUMN,
        }
    }
}

// The constants above, by the same names.
#[derive(Clone, Copy)]
pub struct Limits {
    pub block_size: usize,
    pub directory_size: usize,
    pub shortest_pool: usize,
    pub longest_pool: usize,
    pub most_shares: usize,
    pub marks_per_share: usize,
    pub most_marks: usize,
    pub marks_per_depth: usize,
    pub names: usize,
    pub least_alphabet: usize,
    pub most_alphabet: usize,
    pub frame_size: usize,
    pub longest_commands: usize,
    pub program_pool: usize,
    pub continuation_column: usize,
    pub last_column: usize,
}
