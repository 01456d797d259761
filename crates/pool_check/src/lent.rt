// What the check goes by: the pool, and of each name the tree.
ghost use Rattle.std.specs.Prelude.{◌≤◌, length};
ghost use Rattle.geometry.specs.Limits.{directory_size, longest_pool, most_alphabet};

// A lent pool that has a whole directory and is no longer than a pool may be.
#[derive(Clone, Copy)]
pub struct Lent<'a> {
    pub bytes: &'a [u8],
    ghost sized: { (directory_size ≤ length bytes.now) × (length bytes.now ≤ longest_pool) },
}

// A name's tree in it: the size of the name's alphabet, and the number that the map has for the blocks of the name. Blocks are numbers
// here, since the walk is what finds whether they are the pool's.
#[derive(Clone, Copy)]
pub struct Tree<'a> {
    pub pool: Lent<'a>,
    pub alphabet: u8,
    pub holder: u8,
    ghost fits: { alphabet ≤ most_alphabet },
}
