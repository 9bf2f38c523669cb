// Numbers written in decimal digits at a place of a run. All else is left as it is.
ghost use Rattle.std.specs.Prelude.{◌≡◌, ◌+◌, ◌≤◌, length};
ghost use Rattle.rules.specs.Cards.{digits, sign_byte, word_bytes, width};
ghost use Rattle.octets.specs.Put.{splice, put_at};

use crate::puts::has_room;

// How many digits a number has: 1 for 0.
#[tactic(auto, using(crate::proofs::Widths::width_is, crate::proofs::Widths::width_of_zero))]
pub fn width_of(x: u64) -> usize
    ensures { (result ≡ width 20 x) × (result ≤ 20) }
{
    x.checked_ilog10().map_or(1, |k| k as usize + 1)
}

// The last n digits of x, from place a on where they fit, written from the last back to the first: so each division is by ten. The stores
// are by the place: of what is written through `iter_mut().rev()` a proof knows nothing.
fn set_field(out: &mut [u8], a: usize, n: usize, x: u64)
    requires { a + n ≤ length out.old }
    ensures { out.new ≡ splice a (digits n x) out.old }
{
    let mut y = x;
    for i in (0..n).rev() {
        out[a + i] = b'0' + (y % 10) as u8;
        y /= 10;
    }
}

// The last n digits of x, from place a on.
#[tactic(auto, unfolding(crate::specs::Put::put_at), using(rules::proofs::Digits::length_digits))]
pub fn put_field(out: &mut [u8], a: usize, n: usize, x: u64)
    ensures { out.new ≡ put_at a (digits n x) out.old }
{
    if has_room(out.len(), a, n) {
        set_field(out, a, n, x);
    }
}

// The byte of a word's sign.
fn sign_of(w: u64) -> u8
    ensures { result ≡ sign_byte w }
{
    if w < 10_000_000_000 { b'+' } else { b'-' }
}

// A word at place a where it fits: its sign and ten digits.
fn set_word(out: &mut [u8], a: usize, w: u64)
    requires { a + 11 ≤ length out.old }
    ensures { out.new ≡ splice a (word_bytes w) out.old }
{
    set_field(out, a + 1, 10, w);
    out[a] = sign_of(w);
}

// A word at place a.
#[tactic(auto, unfolding(crate::specs::Put::put_at), using(rules::proofs::Fields::length_word))]
pub fn put_word(out: &mut [u8], a: usize, w: u64)
    ensures { out.new ≡ put_at a (word_bytes w) out.old }
{
    if has_room(out.len(), a, 11) {
        set_word(out, a, w);
    }
}
