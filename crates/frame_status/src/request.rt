// A command whose code the table has.
ghost use Rattle.std.specs.Prelude.{◌≡◌};
ghost use Rattle.machine.specs.Machine.{trees};
ghost use Rattle.protocol.specs.Commands.{rows, row_of};
ghost use Rattle.protocol.specs.Numbers.{code_of};
ghost use Rattle.protocol.specs.Refusals.{is_name_allowed, is_unused_zero};

use geometry::Record;
use protocol::{Command, Operation};

// The name byte of the command that names none.
const NO_NAME: u8 = 255;

// A command and the operation that its code asks for.
#[derive(Clone, Copy)]
pub struct Request {
    pub command: Command,
    pub operation: Operation,
    ghost coded: { code_of operation ≡ command.code },
}

impl Request {
    // Whether the operation takes the name byte.
    pub(crate) fn is_name_allowed(self) -> bool
        ensures { result ≡ is_name_allowed self.command }
    {
        match self.operation {
            Operation::Unpromised => self.command.name == NO_NAME,
            _ => usize::from(self.command.name) < Record::NAMES,
        }
    }

    // Whether the fourth byte and the fields that the operation doesn't use are zero.
    pub(crate) fn is_unused_zero(self) -> bool
        ensures { result ≡ is_unused_zero trees self.command }
    {
        self.command.fourth == 0
            && (uses_symbol(self.operation) || self.command.symbol == 0)
            && (uses_number(self.operation) || self.command.number == 0)
    }
}

// Whether the operation uses its symbol.
fn uses_symbol(operation: Operation) -> bool
    ensures { result ≡ (row_of (code_of operation) (rows trees)).uses_symbol }
{
    matches!(
        operation,
        Operation::Open | Operation::Insert | Operation::Rank | Operation::Select
    )
}

// Whether the operation uses its number.
fn uses_number(operation: Operation) -> bool
    ensures { result ≡ (row_of (code_of operation) (rows trees)).uses_number }
{
    !matches!(
        operation,
        Operation::Close | Operation::Length | Operation::Unpromised
    )
}
