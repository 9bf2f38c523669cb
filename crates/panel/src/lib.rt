// What the C face answers: word arithmetic and the deck check here, load, run and make in calls, each for any operands, and in structs that C
// can read. The crate panel_c exports each function under its name.
#![tactic(auto)]

mod calls;

ghost use Rattle.std.specs.Prelude.{◌≡◌};
ghost use Rattle.rules.specs.Arithmetic.{add_of, sub_of, mpy_of, div_of, ngmpy_of, sqrt_of, abs_of, summed};
ghost use Rattle.rules.specs.Decks.{deck_of};
ghost use Rattle.panel.specs.Told.{word_told, sum_told, place_told};

pub use calls::{l1_load, l1_make, l1_run};
use rules::{Deck, Reckoned, Sum};
use stops::Told;

// What arithmetic tells: 0 and the word, or the stop number and 0.
#[repr(C)]
#[derive(Clone, Copy, Debug, PartialEq, Eq)]
pub struct Word {
    pub number: u64,
    pub word: u64,
}

// What a sum or a difference tells: the same, and how many digits went.
#[repr(C)]
#[derive(Clone, Copy, Debug, PartialEq, Eq)]
pub struct Summed {
    pub number: u64,
    pub word: u64,
    pub lost: u64,
}

// What the check of a deck tells: 0 and 0, or the number and the place of its first fault. What a load tells: 0 and 0, or why it is refused.
#[repr(C)]
#[derive(Clone, Copy, Debug, PartialEq, Eq)]
pub struct Place {
    pub number: u64,
    pub place: u64,
}

// What is told of arithmetic.
impl From<Reckoned> for Word {
    ghost from_gives = { λ x told. told ≡ word_told x };

    fn from(x: Reckoned) -> Word {
        let told = Told::from(x);
        Word {
            number: told.number,
            word: told.shown,
        }
    }
}

// What is told of a sum or a difference.
impl From<Sum> for Summed {
    ghost from_gives = { λ x told. told ≡ sum_told x };

    fn from(x: Sum) -> Summed {
        let told = Told::from(x.answer);
        Summed {
            number: told.number,
            word: told.shown,
            lost: x.lost,
        }
    }
}

// What is told of the check of a deck.
impl From<Deck> for Place {
    ghost from_gives = { λ x told. told ≡ place_told x };

    fn from(x: Deck) -> Place {
        let told = Told::from(x);
        Place {
            number: told.number,
            place: told.place,
        }
    }
}

// What a run tells: how it ended, the place that goes with a refused call, the orders completed, the word shown and the bytes written.
#[repr(C)]
#[derive(Clone, Copy, Debug, PartialEq, Eq)]
pub struct Ended {
    pub number: u64,
    pub place: u64,
    pub count: u64,
    pub shown: u64,
    pub written: u64,
}

// What making a deck tells: 0 and the bytes of the deck, or why there is none and 0.
#[repr(C)]
#[derive(Clone, Copy, Debug, PartialEq, Eq)]
pub struct Made {
    pub number: u64,
    pub written: u64,
}

// Codes 1 to 5, on any two numbers of 64 bits.
pub fn l1_add(a: u64, b: u64) -> Summed
    ensures { result ≡ sum_told (summed a b (add_of a b)) }
{
    Summed::from(number::add(a, b))
}

pub fn l1_sub(a: u64, b: u64) -> Summed
    ensures { result ≡ sum_told (summed a b (sub_of a b)) }
{
    Summed::from(number::sub(a, b))
}

pub fn l1_mpy(a: u64, b: u64) -> Word
    ensures { result ≡ word_told (mpy_of a b) }
{
    Word::from(number::mpy(a, b))
}

pub fn l1_div(a: u64, b: u64) -> Word
    ensures { result ≡ word_told (div_of a b) }
{
    Word::from(number::div(a, b))
}

pub fn l1_ngmpy(a: u64, b: u64) -> Word
    ensures { result ≡ word_told (ngmpy_of a b) }
{
    Word::from(number::ngmpy(a, b))
}

// Codes 0 300 and 0 350.
pub fn l1_sqrt(b: u64) -> Word
    ensures { result ≡ word_told (sqrt_of b) }
{
    Word::from(number::sqrt(b))
}

pub fn l1_abs(b: u64) -> Word
    ensures { result ≡ word_told (abs_of b) }
{
    Word::from(number::abs(b))
}

// Whether a deck keeps the card rules, for any bytes.
pub fn l1_deck(deck: &[u8]) -> Place
    ensures { result ≡ place_told (deck_of deck.now) }
{
    Place::from(card::check_deck(deck))
}
