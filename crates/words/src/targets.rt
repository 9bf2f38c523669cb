// Where a transfer that looks at a word goes.
ghost use Rattle.std.specs.Prelude.{◌≡◌, eqb, leb};
ghost use Rattle.rules.specs.Words.{pick, address_in, exponent_in};
ghost use Rattle.rules.specs.Orders.{is_negative};

use crate::{address_in, exponent_in, is_negative};
use rules::Address;

// TR SGN: to c where the word is below zero, else to b.
pub fn sign_target(w: u64, b: usize, c: usize) -> usize
    ensures { result ≡ pick (is_negative w) c b }
{
    if is_negative(w) { c } else { b }
}

// TR EXP: to c where the word's last two digits are b or more, else to the order behind.
pub fn exponent_target(w: u64, b: usize, c: usize, next: usize) -> usize
    ensures { result ≡ pick (leb b (exponent_in w)) c next }
{
    if b <= exponent_in(w) { c } else { next }
}

// TR A, TR B and TR C: to the order behind where that address of the word is b, else to c.
pub fn address_target(x: Address, w: u64, b: usize, c: usize, next: usize) -> usize
    ensures { result ≡ pick (eqb (address_in x w) b) next c }
{
    if address_in(x, w) == b as u64 {
        next
    } else {
        c
    }
}
