// The digits that a sum or a difference loses.
ghost use Rattle.std.specs.Prelude.{◌≡◌, max};
ghost use Rattle.rules.specs.Arithmetic.{value_in, is_zero, loss_of, loss_in};

use rules::Reckoned;

// Whether the first eight digits are all 0; of the numbers +0 alone is so.
fn is_zero(w: u64) -> bool
    ensures { result ≡ is_zero (value_in w) }
{
    w % 10_000_000_000 / 100 == 0
}

// What is lost of a and b where w comes of them.
fn loss(a: u64, b: u64, w: u64) -> u64
    ensures { result ≡ loss_of (value_in a) (value_in b) (value_in w) }
{
    if is_zero(w) || is_zero(a) || is_zero(b) {
        return 0;
    }
    (a % 100).max(b % 100).saturating_sub(w % 100)
}

// The same by what was answered; with a refusal nothing is.
pub(crate) fn lost(a: u64, b: u64, answer: Reckoned) -> u64
    ensures { result ≡ loss_in a b answer }
{
    answer.map_or(0, |w| loss(a, b, w))
}
