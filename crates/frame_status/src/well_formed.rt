// The statuses 1 to 3: whether a command is well formed, whatever the pool holds.
ghost use Rattle.frame_status.specs.Forms.{FormStatus};

use crate::request::Request;
use protocol::{Command, Operation, Reason};

// What a well-formed command asks for, or the first of the reasons 1 to 3 to refuse it.
pub fn form_status(c: Command) -> Result<Request, Reason>
    ensures { FormStatus c result }
{
    let operation = Operation::try_from(c.code)?;
    let request = Request {
        command: c,
        operation,
    };
    if !request.is_name_allowed() {
        return Err(Reason::NameNotAllowed);
    }
    if !request.is_unused_zero() {
        return Err(Reason::UnusedNotZero);
    }
    Ok(request)
}
