// Sums and differences: aligned, exact, and rounded once.
ghost use Rattle.std.specs.Prelude.{◌≡◌, ◌+◌, ◌-◌, ◌*◌, ◌^◌, ◌≤◌, ◌<◌, eqb, leb};
ghost use Rattle.std.specs.Int.{from_bool};
ghost use Rattle.rules.specs.Words.{pick};
ghost use Rattle.rules.specs.Rounding.{single, settled, fraction, sum_of, turned};
ghost use Rattle.rules.specs.Arithmetic.{word_of, add_of, sub_of};
ghost use Rattle.number.specs.Operands.{value_of};

use crate::operand;
use crate::operands::Operand;
use crate::rounding::{judged, settle};
use powers::power;
use rules::Reckoned;

// The number of v units of the place j, with a minus or none, where v has fewer than eight digits: told in units so much smaller that it has eight.
fn few(minus: bool, v: u64, j: u64) -> Reckoned
    requires { (v < 10 ^ 7) × (100 ≤ j) × (j < 200) }
    ensures { result ≡ word_of (settled single (from_bool minus) (fraction (v * 10 ^ j) 1)) }
{
    if v == 0 {
        return Ok(0);
    }
    let mut w = v;
    let mut i = 0;
    while w < 10_000_000 {
        w *= 10;
        i += 1;
    }
    judged(minus, w, j - i)
}

// The number of v units of the place j, with a minus or none. The bounds are where v, rounded to eight digits, needs the next unit but one.
fn total(minus: bool, v: u64, j: u64) -> Reckoned
    requires { (v < 99999999500000000) × (100 ≤ j) × (j < 200) }
    ensures { result ≡ word_of (settled single (from_bool minus) (fraction (v * 10 ^ j) 1)) }
{
    if v < 10_000_000 {
        return few(minus, v, j);
    }
    if v < 999_999_995 {
        return settle(minus, 2 * v, 0, 1, j);
    }
    if v < 99_999_999_500 {
        return settle(minus, 2 * v, 2, 100, j);
    }
    if v < 9_999_999_950_000 {
        return settle(minus, 2 * v, 4, 10_000, j);
    }
    if v < 999_999_995_000_000 {
        return settle(minus, 2 * v, 6, 1_000_000, j);
    }
    settle(minus, 2 * v, 8, 100_000_000, j)
}

// What p and n come to, with a minus or none: their sum where they have the same sign, or what one leaves of the other.
fn joined(s: bool, t: bool, p: u64, n: u64) -> u64
    requires { (p < 10 ^ 18) × (n < 10 ^ 18) }
    ensures { result ≡ pick (eqb (from_bool s) (from_bool t)) (p + n) (pick (leb n p) (p - n) (n - p)) }
{
    if s == t { p + n } else { p.abs_diff(n) }
}

// Whether that has a minus: as the larger one has.
fn kept(s: bool, t: bool, p: u64, n: u64) -> bool
    ensures { from_bool result ≡ pick (leb n p) (from_bool s) (from_bool t) }
{
    if n <= p { s } else { t }
}

// The sum of two numbers, of which y has no larger exponent. From ten places on y changes no digit of x; below that the sum is exact. Where it
// is called and not put in place, both go through memory, and a difference takes eighteen instructions more.
#[inline(always)]
fn aligned(x: Operand, y: Operand) -> Reckoned
    requires { y.exponent ≤ x.exponent }
    ensures { result ≡ word_of (sum_of single (value_of x) (value_of y)) }
{
    let apart = x.exponent - y.exponent;
    if 10 <= apart {
        return judged(x.minus, x.digits, x.exponent + 100);
    }
    let p = x.digits * power(apart as usize);
    total(
        kept(x.minus, y.minus, p, y.digits),
        joined(x.minus, y.minus, p, y.digits),
        y.exponent + 100,
    )
}

// The sum of two numbers. It is put in place, since operands that are handed on go through memory: called, it made an order of the bench's
// products ten instructions longer.
#[inline(always)]
fn plus(x: Operand, y: Operand) -> Reckoned
    ensures { result ≡ word_of (sum_of single (value_of x) (value_of y)) }
{
    if x.exponent < y.exponent {
        return aligned(y, x);
    }
    aligned(x, y)
}

// A number with its sign turned.
fn negated(x: Operand) -> Operand
    ensures { value_of result ≡ record { sign = turned (from_bool x.minus); leading = x.digits; exponent = x.exponent } }
{
    Operand {
        minus: !x.minus,
        digits: x.digits,
        exponent: x.exponent,
    }
}

// The two numbers a and b added, and b taken from a. Neither is put in place: with both in the loop of a run every order, a transfer too,
// took five instructions more.
#[inline(never)]
pub(crate) fn sum(a: u64, b: u64) -> Reckoned
    ensures { result ≡ add_of a b }
{
    plus(operand(a)?, operand(b)?)
}

#[inline(never)]
pub(crate) fn difference(a: u64, b: u64) -> Reckoned
    ensures { result ≡ sub_of a b }
{
    plus(operand(a)?, negated(operand(b)?))
}
