// The directory's bytes: the header, and stretches that must be 0.
ghost use Rattle.std.specs.Prelude.{◌+◌, ◌≤◌, length};
ghost use Rattle.geometry.specs.Limits.{directory_size};
ghost use Rattle.pool.specs.Sound.{SoundHeader};
ghost use Rattle.pool_check.specs.Parts.{Zeros};
ghost use Rattle.pool_check.specs.Says.{Says};

use geometry::Record;

// Whether so many bytes from an address on are 0. No way out of the loop, so that the compiler tests sixteen at once.
pub fn all_zero(pool: &[u8], at: usize, many: usize) -> bool
    requires { at + many ≤ length pool.now }
    ensures { Says result (Zeros pool.now at many) }
{
    let mut clean = true;
    for byte in &pool[at..at + many] {
        clean &= *byte == 0;
    }
    clean
}

// Whether the header says this layout, and nothing else.
pub fn header_sound(pool: &[u8]) -> bool
    requires { directory_size ≤ length pool.now }
    ensures { Says result (SoundHeader pool.now) }
{
    pool[0] == Record::LAYOUT_NUMBER && all_zero(pool, 1, Record::HEADER_SIZE - 1)
}
