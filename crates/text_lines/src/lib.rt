// Lines of a stream that comes in chunks of any size. Of each line the first bytes are kept in a buffer that the caller
// lends, as many as it has room for, and the line's length is counted. specs/Lines.antt says what the lines are.
#![tactic(auto)]

ghost use Rattle.std.specs.Prelude.{Bool, List, [], ◌≡◌, ℕ, take};
ghost use Rattle.text_lines.specs.Lines.{Stands, Adds, Finishes, Accepts, Gathers};

pub const LINE_FEED: u8 = 10;

const CARRIAGE_RETURN: u8 = 13;

// A line that is being read, beside the buffer whose front holds its first bytes. The caller lends the buffer, since no crate allocates, to
// each call anew: as a field it would be lent from one call to the next.
#[derive(Clone, Copy)]
pub struct Gathered {
    // how many bytes the buffer holds
    pub kept: usize,
    // how long the line is so far; one longer than a usize can tell counts as long as that
    pub length: usize,
    // whether a carriage return has come that belongs to the line's end if a line feed follows: no other field depends on it, so cases
    // would only repeat them
    pub waits: bool,
}

// What came of a chunk's bytes.
#[derive(Clone, Copy)]
pub enum Gathering {
    // so many bytes were taken from the front, the last of them a line feed, and the line is whole
    Whole { taken: usize, line: Gathered },
    // all bytes were taken, and no line feed is among them
    Unfinished { line: Gathered },
}

impl Gathered {
    // A line of which nothing has come yet.
    pub fn start() -> Gathered
        ensures { (returns : Bool) (keep : List ℕ) → Stands returns [] result keep }
    {
        Gathered {
            kept: 0,
            length: 0,
            waits: false,
        }
    }
}

// The line with one byte more, which is kept where the buffer has room.
fn add(byte: u8, before: Gathered, keep: &mut [u8]) -> Gathered
    ensures { Adds byte before keep.old keep.new result }
{
    let kept = before.kept;
    let length = before.length.saturating_add(1);
    // not `get_mut`, after a write through which std says nothing of the other elements
    if kept < keep.len() {
        keep[kept] = byte;
        Gathered {
            kept: kept + 1,
            length,
            waits: false,
        }
    } else {
        Gathered {
            length, // counted all the same
            waits: false,
            ..before
        }
    }
}

// The input is over, or no line feed follows: a carriage return that waits is a byte of the line.
pub fn finish(before: Gathered, keep: &mut [u8]) -> Gathered
    ensures { Finishes before keep.old keep.new result }
{
    if before.waits {
        add(CARRIAGE_RETURN, before, keep)
    } else {
        before
    }
}

// The line after a byte that is no line feed. Under the rule a carriage return waits for the byte that follows it.
fn accept(byte: u8, returns: bool, before: Gathered, keep: &mut [u8]) -> Gathered
    ensures { Accepts byte returns before keep.old keep.new result }
{
    let line = finish(before, keep);
    if returns && byte == CARRIAGE_RETURN {
        Gathered {
            waits: true,
            ..line
        }
    } else {
        add(byte, line, keep)
    }
}

// Takes bytes in from the front, up to and with a line feed, or all of them if there is none.
pub fn gather(bytes: &[u8], returns: bool, before: Gathered, keep: &mut [u8]) -> Gathering
    ensures { Gathers returns bytes.now before keep.old keep.new result }
{
    let mut line = before;
    for (i, &byte) in bytes.iter().enumerate() {
        if byte == LINE_FEED {
            return Gathering::Whole { taken: i + 1, line };
        }
        line = accept(byte, returns, line, keep);
    }
    Gathering::Unfinished { line }
}

// The first `count` bytes, or all where there are fewer.
pub fn first_bytes(bytes: &[u8], count: usize) -> &[u8]
    ensures { result.now ≡ take count bytes.now }
{
    &bytes[..count.min(bytes.len())]
}
