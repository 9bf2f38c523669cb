// Word arithmetic: the exact result of two numbers, or of one, rounded once to eight digits. A word that is no number is refused.
#![tactic(auto)]

mod losses;
mod operands;
mod orders;
mod products;
mod roots;
mod rounding;
mod steps;
mod sums;

ghost use Rattle.std.specs.Prelude.{◌≡◌, true, false, MatchResult};
ghost use Rattle.std.specs.Int.{from_bool};
ghost use Rattle.rules.specs.Words.{is_number};
ghost use Rattle.rules.specs.Rounding.{signs};
ghost use Rattle.rules.specs.declared.Refusal.TheVariants.{NotNumber};
ghost use Rattle.rules.specs.Arithmetic.{value_in, add_of, sub_of, mpy_of, div_of, ngmpy_of, sqrt_of, abs_of, summed};
ghost use Rattle.number.specs.Operands.{value_of};

use losses::lost;
use operands::Operand;
pub use orders::{lost_by, reckon};
use products::{over, times};
use roots::root;
use rules::{Reckoned, Refusal, Sum};
use sums::{difference, sum};

// A number is +0, or a word of either sign whose ten digits are at least 1000000000. Tried as one pattern of ranges: slower, a product took
// eight instructions more.
pub fn is_number(w: u64) -> bool
    ensures { result ≡ is_number w }
{
    if w == 0 {
        return true;
    }
    if w < 10_000_000_000 {
        return 1_000_000_000 <= w;
    }
    if w < 20_000_000_000 {
        return 11_000_000_000 <= w;
    }
    false
}

// A word as an operand, or the refusal of one that is no number: every order of arithmetic begins so.
fn operand(w: u64) -> Result<Operand, Refusal>
    ensures { MatchResult result (λ x. (is_number w ≡ true) × (value_of x ≡ value_in w)) (λ e. (is_number w ≡ false) × (e ≡ NotNumber)) }
{
    if !is_number(w) {
        return Err(Refusal::NotNumber);
    }
    Ok(Operand {
        minus: 10_000_000_000 <= w,
        digits: w % 10_000_000_000 / 100,
        exponent: w % 100,
    })
}

// Whether a product or a quotient has a minus: where one of the two has it.
fn crossed(x: Operand, y: Operand) -> bool
    ensures { from_bool result ≡ signs (value_of x) (value_of y) }
{
    x.minus != y.minus
}

// Codes 1 and 2, with the digits that went.
pub fn add(a: u64, b: u64) -> Sum
    ensures { result ≡ summed a b (add_of a b) }
{
    let answer = sum(a, b);
    let lost = lost(a, b, answer);
    Sum { answer, lost }
}

pub fn sub(a: u64, b: u64) -> Sum
    ensures { result ≡ summed a b (sub_of a b) }
{
    let answer = difference(a, b);
    let lost = lost(a, b, answer);
    Sum { answer, lost }
}

// Codes 3 to 5.
pub fn mpy(a: u64, b: u64) -> Reckoned
    ensures { result ≡ mpy_of a b }
{
    let x = operand(a)?;
    let y = operand(b)?;
    times(crossed(x, y), x, y)
}

pub fn div(a: u64, b: u64) -> Reckoned
    ensures { result ≡ div_of a b }
{
    let x = operand(a)?;
    let y = operand(b)?;
    if b == 0 {
        return Err(Refusal::ZeroDivisor);
    }
    over(crossed(x, y), x, y)
}

pub fn ngmpy(a: u64, b: u64) -> Reckoned
    ensures { result ≡ ngmpy_of a b }
{
    let x = operand(a)?;
    let y = operand(b)?;
    times(!crossed(x, y), x, y)
}

// Codes 0 300 and 0 350, of one number.
pub fn sqrt(b: u64) -> Reckoned
    ensures { result ≡ sqrt_of b }
{
    let x = operand(b)?;
    if x.minus {
        return Err(Refusal::NegativeRoot);
    }
    root(b)
}

pub fn abs(b: u64) -> Reckoned
    ensures { result ≡ abs_of b }
{
    operand(b)?;
    Ok(b % 10_000_000_000)
}
