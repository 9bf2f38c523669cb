// The C face: each function under its own name and the C calling convention, for any operands. What it answers is panel's, and its clauses are
// those of the function of panel that it calls. include/l1.h declares what is exported.
#![tactic(auto)]

ghost use Rattle.std.specs.Prelude.{◌≡◌};
ghost use Rattle.rules.specs.Arithmetic.{add_of, sub_of, mpy_of, div_of, ngmpy_of, sqrt_of, abs_of, summed};
ghost use Rattle.rules.specs.Decks.{deck_of};
ghost use Rattle.rules.specs.Making.{made};
ghost use Rattle.panel.specs.Told.{word_told, sum_told, place_told};
ghost use Rattle.panel.specs.Calls.{load_call, load_called, LoadTold, run_call, run_called, RunTold, make_call, MakeTold};

use panel::{Ended, Made, Place, Summed, Word};

// Codes 1 to 5, on any two numbers of 64 bits.
#[unsafe(no_mangle)]
pub extern "C" fn l1_add(a: u64, b: u64) -> Summed
    ensures { result ≡ sum_told (summed a b (add_of a b)) }
{
    panel::l1_add(a, b)
}

#[unsafe(no_mangle)]
pub extern "C" fn l1_sub(a: u64, b: u64) -> Summed
    ensures { result ≡ sum_told (summed a b (sub_of a b)) }
{
    panel::l1_sub(a, b)
}

#[unsafe(no_mangle)]
pub extern "C" fn l1_mpy(a: u64, b: u64) -> Word
    ensures { result ≡ word_told (mpy_of a b) }
{
    panel::l1_mpy(a, b)
}

#[unsafe(no_mangle)]
pub extern "C" fn l1_div(a: u64, b: u64) -> Word
    ensures { result ≡ word_told (div_of a b) }
{
    panel::l1_div(a, b)
}

#[unsafe(no_mangle)]
pub extern "C" fn l1_ngmpy(a: u64, b: u64) -> Word
    ensures { result ≡ word_told (ngmpy_of a b) }
{
    panel::l1_ngmpy(a, b)
}

// Codes 0 300 and 0 350.
#[unsafe(no_mangle)]
pub extern "C" fn l1_sqrt(b: u64) -> Word
    ensures { result ≡ word_told (sqrt_of b) }
{
    panel::l1_sqrt(b)
}

#[unsafe(no_mangle)]
pub extern "C" fn l1_abs(b: u64) -> Word
    ensures { result ≡ word_told (abs_of b) }
{
    panel::l1_abs(b)
}

// Whether a deck keeps the card rules, for any bytes.
#[unsafe(no_mangle)]
pub extern "C" fn l1_deck(deck: &[u8]) -> Place
    ensures { result ≡ place_told (deck_of deck.now) }
{
    panel::l1_deck(deck)
}

// A load. Where it is refused, everything stays as it came.
#[unsafe(no_mangle)]
pub extern "C" fn l1_load(
    drum: &mut [u64],
    marks: &mut [u8],
    deck: &[u8],
    state: &mut [u64],
    traced: u64,
) -> Place
    ensures { LoadTold state.old
        (load_called state.old (load_call drum.old marks.old deck.now state.old traced))
        drum.new marks.new state.new result }
{
    panel::l1_load(drum, marks, deck, state, traced)
}

// A run of orders up to a budget.
#[unsafe(no_mangle)]
pub extern "C" fn l1_run(
    drum: &mut [u64],
    marks: &mut [u8],
    deck: &[u8],
    out: &mut [u8],
    state: &mut [u64],
    budget: u64,
    stop: u64,
) -> Ended
    ensures { RunTold state.old
        (run_called state.old (run_call drum.old marks.old deck.now out.old state.old budget stop))
        drum.new marks.new out.new state.new result }
{
    panel::l1_run(drum, marks, deck, out, state, budget, stop)
}

// A load deck of the marked cells. Drum and marks are only read; where it is refused, the output stays as it came.
#[unsafe(no_mangle)]
pub extern "C" fn l1_make(
    drum: &[u64],
    marks: &[u8],
    out: &mut [u8],
    first: u64,
    problem: u64,
) -> Made
    ensures { MakeTold (made (make_call drum.now marks.now out.old first problem)) out.new result }
{
    panel::l1_make(drum, marks, out, first, problem)
}
