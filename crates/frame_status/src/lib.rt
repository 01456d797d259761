// The status of a command on a sound pool: the tests of RULES, Statuses in their order, up to the first that refuses it.
#![tactic(auto)]

ghost use Rattle.std.specs.Prelude.{◌≡◌};
ghost use Rattle.frame_status.specs.Statuses.{status_in, status_told, Naming};

use crate::named::named_status;
use crate::openings::opening_status;
use geometry::Record;
use protocol::{Operation, Reason};

mod named;
mod openings;
mod request;
mod well_formed;

pub use openings::unpromised;
pub use request::Request;
pub use well_formed::form_status;

// The tests of a well-formed command to a name, whose record was read.
pub fn status_of(pool: &[u8], request: Request, found: Record) -> Result<(), Reason>
    requires { Naming pool.now request.command found }
    ensures { status_told result ≡ status_in pool.now request.command }
{
    match request.operation {
        Operation::Open => opening_status(pool, request.command, found),
        _ => named_status(pool, request, found),
    }
}
