// Load, run and make on what a C program lends. The state is nine numbers, read and replaced in place.
ghost use Rattle.std.specs.Prelude.{◌≡◌};
ghost use Rattle.rules.specs.Making.{made};
ghost use Rattle.panel.specs.Calls.{make_call, making_told, MakeTold};
ghost use Rattle.panel.specs.Calls.{is_on, barred, load_call, load_called, loading_told, LoadTold, run_call, run_called, ending_told, RunTold};

use crate::{Ended, Made, Place};
use rules::{Bar, Ending, Loading, Making, State, Switches};
use stops::{Told, making_written};

// A switch is on at any number but 0.
fn is_on(x: u64) -> bool
    ensures { result ≡ is_on x }
{
    0 < x
}

// What is told of a load.
impl From<Loading> for Place {
    ghost from_gives = { λ x told. told ≡ loading_told x };

    fn from(x: Loading) -> Place {
        let told = Told::from(x);
        Place {
            number: told.number,
            place: told.place,
        }
    }
}

// What is told of a run.
fn ending_told(x: Ending, count: u64, written: usize) -> Ended
    ensures { result ≡ ending_told x count written }
{
    let told = Told::from(x);
    Ended {
        number: told.number,
        place: told.place,
        count,
        shown: told.shown,
        written: written as u64,
    }
}

// Why a call is refused that brings no state: check 10, the check of the deck, or else check 12.
fn why_barred(drum: &[u64], marks: &[u8], deck: &[u8]) -> Bar
    ensures { result ≡ barred drum.now marks.now deck.now }
{
    if !drum::is_fit(drum, marks) {
        return Bar::BadDrum;
    }
    match card::check_deck(deck) {
        Ok(_) => Bar::BadState,
        Err(fault) => Bar::BadDeck(fault),
    }
}

// A load. Where it is refused, everything stays as it came.
pub fn l1_load(
    drum: &mut [u64],
    marks: &mut [u8],
    deck: &[u8],
    state: &mut [u64],
    traced: u64,
) -> Place
    ensures { LoadTold state.old
        (load_called state.old (load_call drum.old marks.old deck.now state.old traced))
        drum.new marks.new state.new result }
{
    let Ok(row) = <[u64; 9]>::try_from(&*state) else {
        let refused: Loading = Err(why_barred(drum, marks, deck));
        return Place::from(refused);
    };
    let x = machine::load(drum, marks, deck, State::from(row), is_on(traced));
    state.copy_from_slice(&<[u64; 9]>::from(x.state));
    Place::from(x.loading)
}

// A run of orders up to a budget.
pub fn l1_run(
    drum: &mut [u64],
    marks: &mut [u8],
    deck: &[u8],
    out: &mut [u8],
    state: &mut [u64],
    budget: u64,
    stop: u64,
) -> Ended
    ensures { RunTold state.old
        (run_called state.old (run_call drum.old marks.old deck.now out.old state.old budget stop))
        drum.new marks.new out.new state.new result }
{
    let Ok(numbers) = <[u64; 9]>::try_from(&*state) else {
        return ending_told(Err(why_barred(drum, marks, deck)), 0, 0);
    };
    let switches = Switches { stop: is_on(stop) };
    let x = machine::run(
        drum,
        marks,
        out,
        deck,
        State::from(numbers),
        budget,
        switches,
    );
    state.copy_from_slice(&<[u64; 9]>::from(x.state));
    ending_told(x.ending, x.count, x.written)
}

// What is told of a deck that was to be made.
impl From<Making> for Made {
    ghost from_gives = { λ x told. told ≡ making_told x };

    fn from(x: Making) -> Made {
        Made {
            number: Told::from(x).number,
            written: making_written(x) as u64,
        }
    }
}

// A load deck of the marked cells. Drum and marks are only read; where it is refused, the output stays as it came.
pub fn l1_make(drum: &[u64], marks: &[u8], out: &mut [u8], first: u64, problem: u64) -> Made
    ensures { MakeTold (made (make_call drum.now marks.now out.old first problem)) out.new result }
{
    Made::from(making::make(drum, marks, out, first, problem))
}
