// What `sequence` answers on lent bytes, compared with answers found one mark at a time: on every list of at most six marks
// over three symbols, and on a list that is longer than two counting pieces.
#![tactic(auto)]

use sequence::{count_in, find};
use std::{array, io};

// How many of the marks are `symbol`. With `filter` and `count` the whole program had a fifth more instructions.
fn plain_count(marks: &[u8], symbol: u8) -> usize {
    let mut met = 0;
    for mark in marks {
        met += usize::from(*mark == symbol);
    }
    met
}

// The place of the `symbol` that has so many before it, or the number of marks. With `filter` and `nth` over the places the whole program
// had half as many instructions again.
fn plain_place(marks: &[u8], symbol: u8, before: usize) -> usize {
    let mut left = before;
    for (at, mark) in marks.iter().enumerate() {
        if *mark == symbol {
            if left == 0 {
                return at + 1;
            }
            left -= 1;
        }
    }
    marks.len()
}

// Every stretch that starts at `from`.
fn stretches_from_agree(marks: &[u8], from: usize, symbol: u8) -> bool {
    (from..=marks.len()).all(|to| count_in(marks, from, to, symbol)
        == plain_count(&marks[from..to], symbol))
}

// Every stretch that starts before `starts`.
fn stretches_agree(marks: &[u8], starts: usize, symbol: u8) -> bool {
    (0..starts).all(|from| stretches_from_agree(marks, from, symbol))
}

// The place of every j-th, from the first to one that is too many.
fn places_agree(marks: &[u8], symbol: u8) -> bool {
    (0..=marks.len()).all(|before| find(marks, symbol, before + 1)
        == plain_place(marks, symbol, before))
}

// All of it, for three symbols and one that no mark is.
fn answers_agree(marks: &[u8], starts: usize) -> bool {
    (0..4).all(|symbol| stretches_agree(marks, starts, symbol) && places_agree(marks, symbol))
}

// The list of `len` marks whose digits to base 3 make `code`.
fn small_list_agrees(len: usize, code: usize) -> bool {
    let mut marks = [0; 6];
    let mut left = code;
    for mark in &mut marks {
        *mark = (left % 3) as u8;
        left /= 3;
    }
    len <= 6 && answers_agree(&marks[..len], 7)
}

// Every list of at most six marks.
fn small_lists_agree() -> bool {
    (0..=6).all(|len| (0..729).all(|code| small_list_agrees(len, code)))
}

// A list of 600 marks.
fn long_list_agrees() -> bool {
    let marks: [u8; 600] = array::from_fn(|i| ((i / 7 + i / 3) % 3) as u8);
    answers_agree(&marks, 3)
}

fn main(rt: HostRuntime) -> io::Result<()> {
    if small_lists_agree() && long_list_agrees() {
        println!(rt; "sequence agrees in all cases")
    } else {
        println!(rt; "sequence differs in some case")
    }
}
