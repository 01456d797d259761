// The numbers of the pool's layout (docs/LAYOUT.md).
ghost use Rattle.std.specs.Prelude.{◌≡◌};
ghost use Rattle.geometry.specs.Layout.{all_layout};

use crate::Record;

impl Record {
    // The directory's bytes.
    // bytes of the directory's header, before the first record
    pub const HEADER_SIZE: usize = 128;
    // what byte 0 of the header holds: the layout's number
    pub const LAYOUT_NUMBER: u8 = 1;
    // bytes of a name's record
    pub const RECORD_SIZE: usize = 24;
    // where a record has its kind, one byte
    pub const KIND_AT: usize = 0;
    // its alphabet size, one byte
    pub const ALPHABET_AT: usize = 1;
    // its tree's height, one byte
    pub const HEIGHT_AT: usize = 2;
    // a zero byte
    pub const ZERO_AT: usize = 3;
    // its shares q, a word
    pub const Q_AT: usize = 4;
    // its root block, a word
    pub const ROOT_AT: usize = 6;
    // its number of marks, a word
    pub const LENGTH_AT: usize = 8;
    // zeros from here to its end
    pub const SPARE_AT: usize = 10;
    // the kind of a closed name; kinds and forms are bytes and no enum, since a record is read before anything is known of the pool
    // (`record_of`), and 254 of the bytes that anyone may lend are no kind
    pub const KIND_CLOSED: u8 = 0;
    // the kind of an open name whose marks stand one to a byte
    pub const KIND_MARKS: u8 = 1;
    // bytes of a word, low byte first
    pub const WORD_SIZE: usize = 2;

    // A block's bytes.
    // where a block has its form, one byte; its entries stand before
    pub const FORM_AT: usize = 125;
    // its number of entries, a word
    pub const COUNT_AT: usize = 126;
    // the form of a block whose marks stand one to a byte
    pub const FORM_MARKS: u8 = 0;
    // bytes of a branch's entry, which starts with its link, a word
    pub const ENTRY_SIZE: usize = 36;
    // where an entry has the number of marks below it, a word
    pub const ENTRY_MARKS_AT: usize = 2;
    // its counts, a word for each symbol
    pub const ENTRY_COUNTS_AT: usize = 4;

    // Trees.
    // marks of a leaf that is no root, at least
    pub const LEAST_LEAF: usize = 63;
    // marks of a leaf at most
    pub const MOST_LEAF: usize = 125;
    // children of a branch at least
    pub const LEAST_BRANCH: usize = 2;
    // children of a branch at most
    pub const MOST_BRANCH: usize = 3;
    // levels of branches above the leaves at most
    pub const MOST_HEIGHT: usize = 7;

    // All of these numbers, so that a contract can say what each is.
    pub fn layout() -> Layout
        ensures { result ≡ all_layout }
    {
        Layout {
            header_size: Record::HEADER_SIZE,
            layout_number: Record::LAYOUT_NUMBER,
            record_size: Record::RECORD_SIZE,
            kind_at: Record::KIND_AT,
            alphabet_at: Record::ALPHABET_AT,
            height_at: Record::HEIGHT_AT,
            zero_at: Record::ZERO_AT,
            q_at: Record::Q_AT,
            root_at: Record::ROOT_AT,
            length_at: Record::LENGTH_AT,
            spare_at: Record::SPARE_AT,
            kind_closed: Record::KIND_CLOSED,
            kind_marks: Record::KIND_MARKS,
            word_size: Record::WORD_SIZE,
            form_at: Record::FORM_AT,
            count_at: Record::COUNT_AT,
            form_marks: Record::FORM_MARKS,
            entry_size: Record::ENTRY_SIZE,
            entry_marks_at: Record::ENTRY_MARKS_AT,
            entry_counts_at: Record::ENTRY_COUNTS_AT,
            least_leaf: Record::LEAST_LEAF,
            most_leaf: Record::MOST_LEAF,
            least_branch: Record::LEAST_BRANCH,
            most_branch: Record::MOST_BRANCH,
            most_height: Record::MOST_HEIGHT,
        }
    }
}

// The constants above, by the same names.
#[derive(Clone, Copy)]
pub struct Layout {
    pub header_size: usize,
    pub layout_number: u8,
    pub record_size: usize,
    pub kind_at: usize,
    pub alphabet_at: usize,
    pub height_at: usize,
    pub zero_at: usize,
    pub q_at: usize,
    pub root_at: usize,
    pub length_at: usize,
    pub spare_at: usize,
    pub kind_closed: u8,
    pub kind_marks: u8,
    pub word_size: usize,
    pub form_at: usize,
    pub count_at: usize,
    pub form_marks: u8,
    pub entry_size: usize,
    pub entry_marks_at: usize,
    pub entry_counts_at: usize,
    pub least_leaf: usize,
    pub most_leaf: usize,
    pub least_branch: usize,
    pub most_branch: usize,
    pub most_height: usize,
}
