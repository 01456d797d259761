// What commands ask for and why they are refused, numbered and in the order of RULES, Commands and Statuses.
ghost use Rattle.std.specs.Prelude.{◌≡◌};
ghost use Rattle.protocol.specs.Commands.{all_codes};
ghost use Rattle.protocol.specs.Numbers.{OfCode};
ghost use Rattle.protocol.specs.Refusals.{all_statuses};

// What a command asks for; its number is the command's code.
#[derive(Clone, Copy, PartialEq, Eq)]
pub enum Operation {
    Open = 0x01,
    Close = 0x02,
    Insert = 0x03,
    Delete = 0x04,
    Access = 0x05,
    Rank = 0x06,
    Select = 0x07,
    Length = 0x08,
    Unpromised = 0x09,
}

impl Operation {
    // All of these, so that a contract can say that they are the table's.
    fn codes() -> [u8; 9]
        ensures { result ≡ all_codes }
    {
        [
            Operation::Open as u8,
            Operation::Close as u8,
            Operation::Insert as u8,
            Operation::Delete as u8,
            Operation::Access as u8,
            Operation::Rank as u8,
            Operation::Select as u8,
            Operation::Length as u8,
            Operation::Unpromised as u8,
        ]
    }
}

impl TryFrom<u8> for Operation {
    type Error = Reason;

    ghost try_from_gives = { OfCode };

    // The operation with this code.
    fn try_from(code: u8) -> Result<Self, Reason> {
        match code {
            0x01 => Ok(Operation::Open),
            0x02 => Ok(Operation::Close),
            0x03 => Ok(Operation::Insert),
            0x04 => Ok(Operation::Delete),
            0x05 => Ok(Operation::Access),
            0x06 => Ok(Operation::Rank),
            0x07 => Ok(Operation::Select),
            0x08 => Ok(Operation::Length),
            0x09 => Ok(Operation::Unpromised),
            _ => Err(Reason::UnknownCode),
        }
    }
}

// Why a command is refused; its number is the answer's status.
#[derive(Clone, Copy, PartialEq, Eq)]
pub enum Reason {
    UnknownCode = 1,
    NameNotAllowed = 2,
    UnusedNotZero = 3,
    AlreadyOpen = 4,
    NotOpen = 5,
    AlphabetNotAllowed = 6,
    NoShares = 7,
    SymbolOutside = 8,
    PlaceOutside = 9,
    OrdinalOutside = 10,
    Full = 11,
    SharesExceeded = 12,
}

impl Reason {
    // All of these, so that a contract can say that they are the table's.
    fn statuses() -> [u8; 12]
        ensures { result ≡ all_statuses }
    {
        [
            Reason::UnknownCode as u8,
            Reason::NameNotAllowed as u8,
            Reason::UnusedNotZero as u8,
            Reason::AlreadyOpen as u8,
            Reason::NotOpen as u8,
            Reason::AlphabetNotAllowed as u8,
            Reason::NoShares as u8,
            Reason::SymbolOutside as u8,
            Reason::PlaceOutside as u8,
            Reason::OrdinalOutside as u8,
            Reason::Full as u8,
            Reason::SharesExceeded as u8,
        ]
    }
}
