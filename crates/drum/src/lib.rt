// The cells of a lent drum and its marks: read as the job sees them, stored into, and the checks 10, 20 and 21. Each function takes runs of
// any length and any address; where there is no cell, there is a foreign one. Drum and marks are two slices and no struct: C lends them
// apart and to be written, and a struct of the two would need its ghost names in every clause.
#![tactic(auto)]

mod blocks;
mod checking;
mod checks;

ghost use Rattle.std.specs.Prelude.{◌≡◌};
ghost use Rattle.rules.specs.Drum.{view, cell_at, word_at};
ghost use Rattle.rules.specs.Codes.{owned_at};
ghost use Rattle.drum.specs.Held.{Stored};

pub use blocks::{all_owned, first_words};
pub use checking::is_fit;
pub use checks::check;
use rules::Cell;

// The cell at an address.
pub fn cell(drum: &[u64], marks: &[u8], a: usize) -> Cell
    ensures { result ≡ cell_at (view drum.now marks.now) a }
{
    let word = drum.get(a)?;
    let mark = marks.get(a)?;
    if *mark == 0 {
        return None;
    }
    Some(*word)
}

// The word that a cell shows: +0 where it is unmarked.
pub fn word(drum: &[u64], marks: &[u8], a: usize) -> u64
    ensures { result ≡ word_at (view drum.now marks.now) a }
{
    cell(drum, marks, a).unwrap_or(0)
}

// Whether a cell is marked.
pub fn is_owned(drum: &[u64], marks: &[u8], a: usize) -> bool
    ensures { result ≡ owned_at (view drum.now marks.now) a }
{
    cell(drum, marks, a).is_some()
}

// A word goes into a cell, which is marked; where there is no such cell nothing is changed.
pub fn keep(drum: &mut [u64], marks: &mut [u8], a: usize, w: u64)
    ensures { Stored drum.old marks.old a w drum.new marks.new }
{
    if a < drum.len() && a < marks.len() {
        drum[a] = w;
        marks[a] = 1;
    }
}
