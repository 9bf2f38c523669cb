// A load deck made of a drum's marked cells, to keep a prepared drum. Only `make` is shown; it takes runs of any length and any numbers.
#![tactic(auto)]

mod blocks;
mod cards;

ghost use Rattle.std.specs.Prelude.{◌≡◌};
ghost use Rattle.rules.specs.Making.{numbers_fit, made};
ghost use Rattle.making.specs.Made.{MakeRight};

use rules::{Making, Unmade};

// Whether a deck may have this first order and this problem number.
fn numbers_fit(order: u64, problem: u64) -> bool
    ensures { result ≡ numbers_fit order problem }
{
    (1..=999).contains(&order) && problem <= 999
}

// The deck of a drum's marked cells 001 to 999, with this first order and this problem number. The checks 10, 12 and 22 come first, and a
// call that one of them refuses writes nothing.
pub fn make(drum: &[u64], marks: &[u8], out: &mut [u8], order: u64, problem: u64) -> Making
    ensures { MakeRight
        (made (record { drum = drum.now; marks = marks.now; out = out.old; order = order; problem = problem }))
        out.new result }
{
    if !drum::is_fit(drum, marks) {
        return Err(Unmade::UnfitDrum);
    }
    if !numbers_fit(order, problem) {
        return Err(Unmade::UnfitNumber);
    }
    let size = blocks::deck_size(drum, marks);
    if out.len() < size {
        return Err(Unmade::Full);
    }
    cards::write_deck(drum, marks, out, order as usize, problem);
    Ok(size)
}
