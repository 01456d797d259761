// A name, asked for everything that its slot expects.
ghost use Rattle.std.specs.Prelude.{◌≤◌, ◌<◌, length};
ghost use Rattle.geometry.specs.Limits.{most_alphabet};
ghost use Rattle.shape.specs.Trees.{marks_t};
ghost use Rattle.tree_query.specs.Records.{OfOpenName, tree_by};
ghost use Rattle.tree_query_cases.specs.Slots.{slot_size};

use crate::{MARKS_AT, NUMBER_AT};
use geometry::Record;
use std::fmt;

// An open name of the pool, by the record that was read of it. That it is open stays a clause (`tree_query/src/by_name.rt` says why).
#[derive(Clone, Copy)]
pub struct Asked<'a> {
    pub pool: &'a [u8],
    pub found: Record,
}

// What is otherwise than the slot expects: the number of marks, or an answer at a place.
#[derive(Clone, Copy)]
pub enum Difference {
    Length(usize),
    ShortSlot(usize),
    Mark(usize),
    Depth(usize),
    Rank { symbol: u8, place: usize },
    Select { symbol: u8, place: usize },
}

impl fmt::Display for Difference {
    fn fmt<W: fmt::Write>(&self, f: &mut fmt::Formatter<W>) -> fmt::Result {
        match self {
            Difference::Length(number) => write!(f, "its length differs from {number}"),
            Difference::ShortSlot(number) => write!(f, "its slot is too short for {number}"),
            Difference::Mark(place) => write!(f, "access differs at place {place}"),
            Difference::Depth(place) => write!(f, "the depth differs at place {place}"),
            Difference::Rank { place, .. } => write!(f, "rank differs at place {place}"),
            Difference::Select { place, .. } => write!(f, "select differs for place {place}"),
        }
    }
}

impl Asked<'_> {
    // Compares every answer with a slot, whose marks are all at one depth, and gives their number.
    pub fn compare(&self, depth: usize, slot: &[u8]) -> Result<usize, Difference>
        requires { OfOpenName self.now.pool.now self.now.found × (slot_size ≤ length slot.now) }
    {
        let number = pool::word(slot, NUMBER_AT);
        if usize::from(self.found.length) != number {
            return Err(Difference::Length(number));
        }
        if number > slot.len() - MARKS_AT {
            return Err(Difference::ShortSlot(number));
        }
        let marks = &slot[MARKS_AT..MARKS_AT + number];
        self.compare_marks(depth, marks)?;
        self.compare_symbols(marks)?;
        Ok(number)
    }

    // The mark at every place, and its depth.
    fn compare_marks(&self, depth: usize, marks: &[u8]) -> Result<(), Difference>
        requires opened { OfOpenName self.now.pool.now self.now.found }
        requires long { length marks.now ≤ length (marks_t (tree_by self.now.pool.now self.now.found)) }
    {
        for (i, mark) in marks.iter().enumerate() {
            let place = i + 1;
            let answer = tree_query::access(self.pool, self.found, place);
            if answer.mark != *mark {
                return Err(Difference::Mark(place));
            }
            if answer.blocks != depth {
                return Err(Difference::Depth(place));
            }
        }
        Ok(())
    }

    // The ranks and places of every symbol, those past the name's alphabet too.
    fn compare_symbols(&self, marks: &[u8]) -> Result<(), Difference>
        requires opened { OfOpenName self.now.pool.now self.now.found }
        requires long { length marks.now ≤ length (marks_t (tree_by self.now.pool.now self.now.found)) }
    {
        for symbol in 0..Record::MOST_ALPHABET as u8 {
            self.compare_symbol(symbol, marks)?;
        }
        Ok(())
    }

    // The rank of a symbol at every place from 0 on, counted one mark at a time, and the place of each that is met.
    fn compare_symbol(&self, symbol: u8, marks: &[u8]) -> Result<(), Difference>
        requires opened { OfOpenName self.now.pool.now self.now.found × (symbol < most_alphabet) }
        requires long { length marks.now ≤ length (marks_t (tree_by self.now.pool.now self.now.found)) }
    {
        self.compare_place(symbol, 0, 0, 0)?;
        let mut met = 0;
        for (i, mark) in marks.iter().enumerate() {
            let before = met;
            if *mark == symbol {
                met += 1;
            }
            self.compare_place(symbol, i + 1, before, met)?;
        }
        Ok(())
    }

    // The rank at a place, where so many should be met up to it, and so many before it; where that is one more, the place of the last met.
    // Inlined, it would have the marks compared with a symbol as wide as the loop's counter: 1.4 times as long for the whole program.
    #[inline(never)]
    fn compare_place(
        &self,
        symbol: u8,
        place: usize,
        before: usize,
        met: usize,
    ) -> Result<(), Difference>
        requires opened { OfOpenName self.now.pool.now self.now.found × (symbol < most_alphabet) }
        requires inside { place ≤ length (marks_t (tree_by self.now.pool.now self.now.found)) }
    {
        if tree_query::rank(self.pool, self.found, symbol, place) != met {
            return Err(Difference::Rank { symbol, place });
        }
        if met > before && tree_query::select(self.pool, self.found, symbol, met) != place {
            return Err(Difference::Select { symbol, place });
        }
        Ok(())
    }
}
