// The sizes and limits of the index, each named once, as constants of the directory's record.
// `specs/` has the same numbers by the same names; `Record::limits` and `Record::layout` show them equal.
#![tactic(auto)]

ghost use Rattle.std.specs.Prelude.{◌≡◌};
ghost use Rattle.geometry.specs.Records.{closed_record, opened_record};

mod layout;
mod limits;

pub use layout::Layout;
pub use limits::Limits;

// What the directory says of one name.
#[derive(Clone, Copy)]
pub struct Record {
    // a byte, whatever it is: layout.rt says why it is no enum
    pub kind: u8,
    pub alphabet: u8,
    pub height: u8,
    pub q: u16,
    pub root: u16,
    pub length: u16,
}

impl Record {
    // The record of a closed name: all zeros.
    pub fn closed() -> Self
        ensures { result ≡ closed_record }
    {
        Record {
            kind: Record::KIND_CLOSED,
            alphabet: 0,
            height: 0,
            q: 0,
            root: 0,
            length: 0,
        }
    }

    // The record of a name just opened, whose tree is one empty leaf at the block `root`.
    pub fn opened(alphabet: u8, q: u16, root: u16) -> Self
        ensures { result ≡ opened_record alphabet q root }
    {
        Record {
            kind: Record::KIND_MARKS,
            alphabet,
            height: 0,
            q,
            root,
            length: 0,
        }
    }
}
