// A root by the newsletter's own steps (section XI.3), from its own first guess: each goes from x to half the sum of x and of the number
// over x. Three are enough, and then one correction (Steps.antt says how far off each may be). It is proved, and no order asks for it:
// roots are found by roots.rt, with which it agrees, since both keep one contract. Tried: what comes before the guess and behind it shared with
// roots.rt, and a root there took 125 instructions and not 118.
ghost use Rattle.std.specs.Prelude.{◌≡◌, true, ◌+◌, ◌*◌, ◌^◌, ◌≤◌, ◌<◌};
ghost use Rattle.rules.specs.Words.{is_number};
ghost use Rattle.rules.specs.Rounding.{single, settled, root_halves, root_of};
ghost use Rattle.rules.specs.Arithmetic.{value_in, word_of};
ghost use Rattle.number.specs.Steps.{Chosen, OneMore, NearestRoot};

use crate::rounding::judged;
use rules::Reckoned;

// Three steps toward the root of n, which is the leading part of b moved up, from 1 + .22 times that part: the nearest number or one more. The
// first stays a fraction, p over q, so that it takes no division; the second comes doubled, and by the scale in the unit of the third, which is
// rounded up.
fn stepped(b: u64, n: u64, scale: u64) -> u64
    requires { (10 ^ 9 ≤ b) × (b < 10 ^ 10) × Chosen b n scale }
    ensures { OneMore n result }
{
    let leading = b * 4_926 / 65_536;
    let guess = 8_669 + b / 524_288;
    let square = guess * guess;
    let p = square + leading;
    let q = 2 * guess;
    let x = (p * p + leading * (q * q)) / (p * (guess * scale / 64) / 67_108_864);
    (n / x + (x + 1)) / 2
}

// The whole number nearest the root of n, from any guess: down while half a unit less is too much, and then up while half a unit more is too
// little.
fn nearest_root(n: u64, guess: u64) -> u64
    requires { (0 < n) × (n < 10 ^ 16) × (1 ≤ guess) × (guess ≤ 2000000000) }
    ensures { NearestRoot n result }
{
    let mut r = guess;
    while 4 * n < (2 * r - 1) * (2 * r - 1) {
        r -= 1;
    }
    while (2 * r + 1) * (2 * r + 1) < 4 * n {
        r += 1;
    }
    r
}

// The root of n times an even power of ten, where the root of n has eight digits and, rounded, no more.
fn even_root_by_steps(n: u64, guess: u64, j: u64) -> Reckoned
    requires { (10 ^ 14 ≤ n) × (n ≤ 9999999900000000) × (1 ≤ guess) × (guess ≤ 2000000000) × (j ≤ 174) }
    ensures { result ≡ word_of (settled single 0 (root_halves single (n * 10 ^ (j + j)))) }
{
    judged(false, nearest_root(n, guess), j)
}

// The root of a number that is not below zero: its digits are moved up by seven or eight places, so that an even power is left.
pub(crate) fn root_by_steps(b: u64) -> Reckoned
    requires { (is_number b ≡ true) × (b < 10 ^ 10) }
    ensures { result ≡ word_of (root_of single (value_in b)) }
{
    if b == 0 {
        return Ok(0);
    }
    let odd = b % 2;
    let n = b / 100 * 10_000_000 * (1 + 9 * odd);
    let guess = stepped(b, n, 14_894_620 - odd * 10_184_528);
    even_root_by_steps(n, guess, (b % 100 + 250) / 2)
}
