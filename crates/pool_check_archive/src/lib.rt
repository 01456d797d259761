// The check for programs in C or Rust, which the benchmark links.
#![tactic(auto)]

ghost use Rattle.pool_check.specs.Parts.{Checked};

use geometry::Record;

#[unsafe(no_mangle)]
pub extern "C" fn forfochry_check(pool: &[u8], map: &mut [u8; Record::MOST_SHARES]) -> bool
    ensures { Checked pool.now result map.new }
{
    pool_check::check(pool, map)
}
