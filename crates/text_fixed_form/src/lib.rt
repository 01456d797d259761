// Marks for the lines of a fixed-form Fortran program (RULES, Marks of a line).
#![tactic(auto)]

ghost use Rattle.std.specs.Prelude.{◌≡◌};
ghost use Rattle.text_fixed_form.specs.Mark.{mark_of, symbol_of, first_that_fits, rules};
ghost use Rattle.text_fixed_form.specs.Mark.{is_comment, is_continuation, opens_comment, continues};

use columns::{BLANK, all_blank, any_outside, column, columns_after};
use geometry::Record;
use text_lines::first_bytes;
use words::begins;

mod columns;
mod words;

// What a line is, by its mark.
#[derive(Clone, Copy)]
enum LineMark {
    // any other line
    Other = 0,
    Comment = 1,
    // of the line before
    Continuation = 2,
    // a statement that lets names share storage
    StorageShared = 3,
    // a statement of common storage
    Common = 4,
    // a line with a byte that no line may have
    Outside = 15,
}

// The mark of `line`, which comes without its line end and may have any length and any bytes. It is a number, since that is what the index
// keeps and what C links.
#[tactic(auto, unfolding(crate::specs::Mark::mark_of))]
pub fn mark(line: &[u8]) -> u8
    ensures { result ≡ mark_of line.now }
{
    mark_of_card(first_bytes(line, Record::LAST_COLUMN)) as u8
}

// The mark of a line whose columns are all read: that of the first rule that fits.
fn mark_of_card(card: &[u8]) -> LineMark
    ensures { symbol_of result ≡ first_that_fits (rules card.now) }
{
    if any_outside(card) {
        return LineMark::Outside;
    }
    if is_comment(card) {
        return LineMark::Comment;
    }
    if is_continuation(card) {
        return LineMark::Continuation;
    }
    let statement = columns_after(card, Record::CONTINUATION_COLUMN);
    if begins(b"EQUIVALENCE(", statement) {
        return LineMark::StorageShared;
    }
    if begins(b"COMMON", statement) {
        return LineMark::Common;
    }
    LineMark::Other
}

// Whether the line is a comment: all blank, or by its first column.
fn is_comment(card: &[u8]) -> bool
    ensures { result ≡ is_comment card.now }
{
    all_blank(card) || opens_comment(column(card, 1))
}

// Whether `byte`, in column 1, makes the line a comment.
fn opens_comment(byte: u8) -> bool
    ensures { result ≡ opens_comment byte }
{
    matches!(byte, b'C' | b'c' | b'*')
}

// Whether the line is a continuation: blank before the continuation column, and by that column.
fn is_continuation(card: &[u8]) -> bool
    ensures { result ≡ is_continuation card.now }
{
    all_blank(first_bytes(card, Record::CONTINUATION_COLUMN - 1))
        && continues(column(card, Record::CONTINUATION_COLUMN))
}

// Whether `byte`, in the continuation column, makes the line a continuation.
fn continues(byte: u8) -> bool
    ensures { result ≡ continues byte }
{
    byte != BLANK
}
