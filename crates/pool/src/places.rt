// Where the records and the blocks of a pool stand, and how many shares it has.
ghost use Rattle.std.specs.Prelude.{◌≡◌, ◌≤◌, ◌<◌, length};
ghost use Rattle.geometry.specs.Limits.{directory_size, names};
ghost use Rattle.pool.specs.Bytes.{shares, record_at, block_at};
ghost use Rattle.pool.specs.Words.{address_limit};

use geometry::Record;

// The number of shares, one for each block.
pub fn shares_of(pool: &[u8]) -> usize
    requires { directory_size ≤ length pool.now }
    ensures { result ≡ shares pool.now }
{
    (pool.len() - Record::DIRECTORY_SIZE) / Record::BLOCK_SIZE
}

// Where the record of a name stands.
pub fn record_at(name: usize) -> usize
    requires { name < names }
    ensures { result ≡ record_at name }
{
    Record::HEADER_SIZE + Record::RECORD_SIZE * name
}

// Where a block stands.
pub fn block_at(b: usize) -> usize
    requires { block_at b < address_limit }
    ensures { result ≡ block_at b }
{
    Record::DIRECTORY_SIZE + Record::BLOCK_SIZE * b
}
