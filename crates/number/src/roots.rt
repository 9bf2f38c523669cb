// Roots, by multiplications: on many processors three of them take less time than a division. Only the answer is promised. Of a guess it is
// proved that it fits, and not how near it is: tried for the digits and places of every number, it is the root or one less.
ghost use Rattle.std.specs.Prelude.{◌≡◌, true, ◌+◌, ◌-◌, ◌*◌, ◌^◌, ◌≤◌, ◌<◌};
ghost use Rattle.rules.specs.Words.{is_number};
ghost use Rattle.rules.specs.Rounding.{single, settled, root_halves, root_of};
ghost use Rattle.rules.specs.Rounded.{RootCut};
ghost use Rattle.rules.specs.Arithmetic.{value_in, word_of};

use crate::rounding::judged;
use rules::Reckoned;

// About 33,442,730 over the root of m, at most one part in sixty off: on each of two stretches a square comes so near.
fn inverse(m: u64) -> u64
    requires { (10 ^ 7 ≤ m) × (m < 10 ^ 8) }
    ensures { result ≤ 12000 }
{
    if m < 32_000_000 {
        let t = 139_863_600 - 4 * m;
        return 5_871 + (t * t >> 41);
    }
    let t = 105_760_000 - m;
    3_380 + (t * t >> 41)
}

// What that inverse y of m is multiplied by, so that three parts in a million are left: by a square once more.
fn nearer(m: u64, y: u64) -> u64
    requires { (m < 10 ^ 8) × (y ≤ 12000) }
    ensures { result ≤ 1400000000 }
{
    let t = 111_100_997u64.saturating_sub(m * y * y >> 24);
    588_230_948 + (t * t >> 24)
}

// A guess for the root of n, which is m times a numeral: c makes the inverse of m a root of n, a little too small, and d makes it the
// inverse of twice that root, by which what the guess's square leaves of n is made up for.
fn near_root(n: u64, m: u64, c: u64, d: u64) -> u64
    requires { (n < 4 * 10 ^ 16) × (10 ^ 7 ≤ m) × (m < 10 ^ 8) × (c < 2 ^ 26) × (d < 2 ^ 18) }
    ensures { result ≤ 4000000000 }
{
    let y = inverse(m);
    let f = nearer(m, y);
    let g = ((m * c >> 21) * y >> 14) * f >> 31;
    g + ((n.saturating_sub(g * g) >> 20) * ((y * f >> 20) * d >> 20) >> 26)
}

// The root of n, cut to a whole number, from any guess. Tried: u64::isqrt alone takes 356 instructions, and a whole order SQRT here 118.
fn root_below(n: u64, guess: u64) -> u64
    requires { (n < 4 * 10 ^ 16) × (guess ≤ 4000000000) }
    ensures { RootCut n result }
{
    let mut r = guess;
    while n < r * r {
        r -= 1;
    }
    while (r + 1) * (r + 1) <= n {
        r += 1;
    }
    r
}

// The root of n times an even power of ten, where the root of n has eight digits and, rounded, no more.
fn even_root(n: u64, guess: u64, j: u64) -> Reckoned
    requires { (10 ^ 14 ≤ n) × (n ≤ 9999999900000000) × (guess ≤ 4000000000) × (j ≤ 174) }
    ensures { result ≡ word_of (settled single 0 (root_halves single (n * 10 ^ (j + j)))) }
{
    judged(false, (root_below(4 * n, guess) + 1) / 2, j)
}

// The root of a number that is not below zero: its digits are moved up by seven or eight places, so that an even power is left.
pub(crate) fn root(b: u64) -> Reckoned
    requires { (is_number b ≡ true) × (b < 10 ^ 10) }
    ensures { result ≡ word_of (root_of single (value_in b)) }
{
    if b == 0 {
        return Ok(0);
    }
    let m = b / 100;
    let x = b % 100;
    if x % 2 == 0 {
        let guess = near_root(m * 40_000_000, m, 19_767_043, 259_091);
        return even_root(m * 10_000_000, guess, (x + 250) / 2);
    }
    let guess = near_root(m * 400_000_000, m, 62_508_878, 81_931);
    even_root(m * 100_000_000, guess, (x + 249) / 2)
}
