// Bytes and decimal numbers read at a place of a run.
ghost use Rattle.std.specs.Prelude.{◌≡◌, ◌+◌, ◌*◌, ◌-◌, ◌≤◌, ◌^◌, min, get_or};
ghost use Rattle.rules.specs.Cards.{is_digit, number_in};
ghost use Rattle.octets.specs.Longer.{longer};

// Whether a byte is a digit.
pub fn is_digit(b: u8) -> bool
    ensures { result ≡ is_digit b }
{
    b.is_ascii_digit()
}

// The byte at place a, and 0 past the end.
pub fn byte_at(d: &[u8], a: usize) -> u8
    ensures { result ≡ get_or d.now a 0 }
{
    d.get(a).copied().unwrap_or(0)
}

// What a byte counts as a digit: 0 where it is below all digits.
fn figure(b: u8) -> u64
    ensures { (result ≡ b - 48) × (result ≤ 207) }
{
    u64::from(b.saturating_sub(b'0'))
}

// The number that n digits from place a on are, or ten of them where there are more. A place past the end counts as 0.
#[tactic(auto, unfolding(rules::specs::Cards::number_in))]
pub fn number_in(d: &[u8], a: usize, n: usize) -> u64
    ensures { (result ≡ number_in d.now a (min n 10)) × (result + 23 ≤ 23 * 10 ^ min n 10) }
{
    let rest = &d[a.min(d.len())..];
    let mut x = 0;
    for i in 0..n.min(10) {
        x = 10 * x + figure(byte_at(rest, i));
    }
    x
}

// Why a number takes no digit more.
#[derive(Clone, Copy, Debug, PartialEq, Eq)]
pub enum DigitError {
    TooLarge,
    NoDigit,
}

// The number x with the byte b behind it, where that is a digit and the number still fits.
#[tactic(auto, unfolding(crate::specs::Longer::longer))]
pub fn with_digit(x: u64, b: u8) -> Result<u64, DigitError>
    ensures { result ≡ longer x b }
{
    if !is_digit(b) {
        return Err(DigitError::NoDigit);
    }
    let tens = x.checked_mul(10).ok_or(DigitError::TooLarge)?;
    tens.checked_add(figure(b)).ok_or(DigitError::TooLarge)
}
