// Marks in lent bytes, one to a byte: how many of them are a symbol, and where its j-th stands.
#![tactic(auto)]

ghost use Rattle.std.specs.Prelude.{◌≡◌, ◌-◌, ◌≤◌, length, take, drop};
ghost use Rattle.sequence.specs.Definition1.{count, select};

// How many of at most 255 marks are `symbol`. The counter is a byte, so that the compiler counts sixteen marks at once.
fn count_short(marks: &[u8], symbol: u8) -> usize
    requires { length marks.now ≤ 255 }
    ensures { result ≡ count symbol marks.now }
{
    let mut met: u8 = 0;
    for mark in marks {
        met += u8::from(*mark == symbol);
    }
    usize::from(met)
}

// How many of the marks from the index `from` up to, not including, `to` are `symbol`.
pub fn count_in(marks: &[u8], from: usize, to: usize, symbol: u8) -> usize
    requires { (from ≤ to) × (to ≤ length marks.now) }
    ensures { result ≡ count symbol (take (to - from) (drop from marks.now)) }
{
    let mut met = 0;
    for piece in marks[from..to].chunks(255) {
        met += count_short(piece, symbol);
    }
    met
}

// The place of the j-th `symbol`: 0 for the 0-th, the number of marks where there are fewer than j, as `select` has it.
pub fn find(marks: &[u8], symbol: u8, j: usize) -> usize
    ensures { result ≡ select symbol marks.now j }
{
    let mut left = j;
    for (place, mark) in marks.iter().enumerate() {
        if left == 0 {
            return place;
        }
        if *mark == symbol {
            left -= 1;
        }
    }
    marks.len()
}
