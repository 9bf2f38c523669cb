// Rounding once to eight digits, and the word of the result.
ghost use Rattle.std.specs.Prelude.{◌≡◌, ℕ, ◌/◌, ◌^◌, ◌<◌};
ghost use Rattle.std.specs.Int.{from_bool};
ghost use Rattle.rules.specs.Rounding.{single, placed, settled};
ghost use Rattle.rules.specs.Arithmetic.{word_of};
ghost use Rattle.number.specs.Asked.{NearUnit};

use rules::{Reckoned, Refusal};

// The word of a minus or none, digits m and the place e, which is its exponent and 100 more. The exponent is judged here, last of all.
#[tactic(auto, using(crate::proofs::Units::placed_words))]
pub(crate) fn judged(minus: bool, m: u64, e: u64) -> Reckoned
    requires { m < 10 ^ 8 }
    ensures { result ≡ word_of (placed single (from_bool minus) m e) }
{
    if e < 100 || 200 <= e {
        return Err(Refusal::OutOfRange);
    }
    Ok(u64::from(minus) * 10_000_000_000 + m * 100 + (e - 100))
}

// The number, with a minus or none, whose halves, counted from the place j, are h: rounded in units u, which are 10^k, or where that makes
// more than eight digits in units ten times as large. With u a numeral at each call, both divisions are by a numeral.
pub(crate) fn settle(minus: bool, h: u64, k: u64, u: u64, j: u64) -> Reckoned
    requires { NearUnit h k u j }
    ensures { (x : ℕ) → x / 10 ^ j ≡ h → result ≡ word_of (settled single (from_bool minus) x) }
{
    if 200_000_000 * u <= h + u {
        return judged(minus, (h / (u * 10) + 1) / 2, j + (k + 1));
    }
    judged(minus, (h / u + 1) / 2, j + k)
}
