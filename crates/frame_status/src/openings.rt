// The status of an opening, and the shares that it looks at, which no name was promised.
ghost use Rattle.std.specs.Prelude.{◌&&◌, ◌≡◌, leb};
ghost use Rattle.geometry.specs.Limits.{least_alphabet, most_alphabet};
ghost use Rattle.pool.specs.Shares.{unpromised_shares};
ghost use Rattle.pool.specs.Sound.{Sound};
ghost use Rattle.protocol.specs.Commands.{open_code};
ghost use Rattle.frame_status.specs.Statuses.{status_in, status_told, Naming};

use geometry::Record;
use pool::shares_of;
use pool_check::promised;
use protocol::{Command, Reason};

// The tests of an opening.
pub fn opening_status(pool: &[u8], c: Command, found: Record) -> Result<(), Reason>
    requires { Naming pool.now c found × (c.code ≡ open_code) }
    ensures { status_told result ≡ status_in pool.now c }
{
    if found.kind != Record::KIND_CLOSED {
        return Err(Reason::AlreadyOpen);
    }
    if !is_alphabet_size(c.symbol) {
        return Err(Reason::AlphabetNotAllowed);
    }
    if c.number == 0 {
        return Err(Reason::NoShares);
    }
    if c.number as usize > unpromised(pool) {
        return Err(Reason::SharesExceeded);
    }
    Ok(())
}

// Whether a name's alphabet may have so many symbols.
fn is_alphabet_size(symbols: u8) -> bool
    ensures { result ≡ (leb least_alphabet symbols && leb symbols most_alphabet) }
{
    (Record::LEAST_ALPHABET..=Record::MOST_ALPHABET).contains(&usize::from(symbols))
}

// The shares promised to no name.
pub fn unpromised(pool: &[u8]) -> usize
    requires { Sound pool.now }
    ensures { result ≡ unpromised_shares pool.now }
{
    shares_of(pool) - promised(pool)
}
