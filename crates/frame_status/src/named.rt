// The status of a command to a name that must be open.
ghost use Rattle.std.specs.Prelude.{◌&&◌, ◌⊎◌, ◌≢◌, ◌≡◌, leb};
ghost use Rattle.protocol.specs.Commands.{open_code, insert_code, delete_code, access_code, rank_code, select_code};
ghost use Rattle.frame_status.specs.Statuses.{status_in, status_told, Naming, Asking, StatusBy};

use crate::request::Request;
use geometry::Record;
use protocol::{Command, Operation, Reason};
use tree_query::count;

// The tests of a command to a name that must be open.
pub fn named_status(pool: &[u8], request: Request, found: Record) -> Result<(), Reason>
    requires { Naming pool.now request.command found × (request.command.code ≢ open_code) }
    ensures { status_told result ≡ status_in pool.now request.command }
{
    if found.kind == Record::KIND_CLOSED {
        return Err(Reason::NotOpen);
    }
    match request.operation {
        Operation::Insert => insertion_status(request.command, found),
        Operation::Delete | Operation::Access => place_status(request.command, found),
        Operation::Rank => rank_status(request.command, found),
        Operation::Select => selection_status(pool, request.command, found),
        _ => Ok(()),
    }
}

// Whether a number is a place of a range.
fn is_place(number: u32, first: u32, last: u32) -> bool
    ensures { result ≡ (leb first number && leb number last) }
{
    (first..=last).contains(&number)
}

// The tests of an insert into an open name.
fn insertion_status(c: Command, found: Record) -> Result<(), Reason>
    requires { c.code ≡ insert_code }
    ensures { StatusBy c found (status_told result) }
{
    if c.symbol >= found.alphabet {
        return Err(Reason::SymbolOutside);
    }
    if !is_place(c.number, 1, u32::from(found.length) + 1) {
        return Err(Reason::PlaceOutside);
    }
    if usize::from(found.length) == Record::MARKS_PER_SHARE * usize::from(found.q) {
        return Err(Reason::Full);
    }
    Ok(())
}

// The tests of a delete from an open name, or of an access.
fn place_status(c: Command, found: Record) -> Result<(), Reason>
    requires { (c.code ≡ delete_code) ⊎ (c.code ≡ access_code) }
    ensures { StatusBy c found (status_told result) }
{
    if !is_place(c.number, 1, u32::from(found.length)) {
        return Err(Reason::PlaceOutside);
    }
    Ok(())
}

// The tests of a rank in an open name.
fn rank_status(c: Command, found: Record) -> Result<(), Reason>
    requires { c.code ≡ rank_code }
    ensures { StatusBy c found (status_told result) }
{
    if c.symbol >= found.alphabet {
        return Err(Reason::SymbolOutside);
    }
    if c.number > u32::from(found.length) {
        return Err(Reason::PlaceOutside);
    }
    Ok(())
}

// The tests of a select in an open name.
fn selection_status(pool: &[u8], c: Command, found: Record) -> Result<(), Reason>
    requires { Asking pool.now c found × (c.code ≡ select_code) }
    ensures { status_told result ≡ status_in pool.now c }
{
    if c.symbol >= found.alphabet {
        return Err(Reason::SymbolOutside);
    }
    if c.number == 0 {
        return Err(Reason::OrdinalOutside);
    }
    if c.number as usize > count(pool, found, c.symbol) {
        return Err(Reason::OrdinalOutside);
    }
    Ok(())
}
