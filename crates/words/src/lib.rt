// What stands in a word: its sign, and the parts of an order. Each function takes any number.
#![tactic(auto)]

mod changes;
mod targets;

ghost use Rattle.std.specs.Prelude.{◌≡◌, ◌≤◌, ◌<◌};
ghost use Rattle.rules.specs.Words.{address_in, worth_of, exponent_in};
ghost use Rattle.rules.specs.Orders.{is_negative};
ghost use Rattle.rules.specs.Running.{is_minus};
ghost use Rattle.words.specs.Parts.{PartsIn};

pub use changes::linked_word;
use rules::Address;
pub use targets::{address_target, exponent_target, sign_target};

// An order taken apart: O1 and A as one number of four digits, B and C.
#[derive(Clone, Copy, Debug, PartialEq, Eq)]
pub struct Parts {
    pub key: usize,
    pub b: usize,
    pub c: usize,
}

// The parts of a word as an order. A function, since docs/PROMISES.md names it, and no plainer as a From of any u64.
pub fn parts_of(w: u64) -> Parts
    ensures { PartsIn w result }
{
    let low = w % 1_000_000;
    Parts {
        key: (w / 1_000_000 % 10_000) as usize,
        b: (low / 1000) as usize,
        c: (w % 1000) as usize,
    }
}

// Whether a word has a minus.
pub fn is_minus(w: u64) -> bool
    ensures { result ≡ is_minus w }
{
    w / 10_000_000_000 == 1
}

// Whether a word has a minus and is not ten zeros.
pub fn is_negative(w: u64) -> bool
    ensures { result ≡ is_negative w }
{
    is_minus(w) && 0 < w % 10_000_000_000
}

// The last two digits of a word.
pub fn exponent_in(w: u64) -> usize
    ensures { result ≡ exponent_in w }
{
    (w % 100) as usize
}

// One address of a word. With a numeral in each arm no order waits for a division, which w / worth_of(x) would be.
pub fn address_in(x: Address, w: u64) -> u64
    ensures { result ≡ address_in x w }
{
    match x {
        Address::OfA => w / 1_000_000 % 1000,
        Address::OfB => w / 1000 % 1000,
        Address::OfC => w % 1000,
    }
}

// What one unit of an address is worth in a word. Address is of the crate rules, so that this is no method of it.
pub fn worth_of(x: Address) -> u64
    ensures { result ≡ worth_of x }
{
    match x {
        Address::OfA => 1_000_000,
        Address::OfB => 1000,
        Address::OfC => 1,
    }
}
