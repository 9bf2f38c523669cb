// What the loop box adds to an order with minus.
ghost use Rattle.std.specs.Prelude.{◌≡◌, true, ◌≤◌};
ghost use Rattle.rules.specs.Running.{box_word, order_fits, as_done};

use crate::desk::Desk;

// The loop box as a word: +0 and three counts.
pub fn box_word(desk: &Desk) -> u64
    ensures { (result ≡ box_word desk.now.state) × (result ≤ 999999999) }
{
    desk.state.counts[0] * 1_000_000 + desk.state.counts[1] * 1000 + desk.state.counts[2]
}

// Whether no sum of an address and its count is above 999; an order with plus has no sums.
pub fn order_fits(desk: &Desk, w: u64) -> bool
    ensures { result ≡ order_fits desk.now.state w }
{
    if !words::is_minus(w) {
        return true;
    }
    let p = words::parts_of(w);
    (p.key % 1000) as u64 + desk.state.counts[0] <= 999
        && p.b as u64 + desk.state.counts[1] <= 999
        && p.c as u64 + desk.state.counts[2] <= 999
}

// The order as it is done, a word if its sums fit.
pub fn as_done(desk: &Desk, w: u64) -> u64
    requires { (w ≤ 19999999999) × (order_fits desk.now.state w ≡ true) }
    ensures { (result ≡ as_done desk.now.state w) × (result ≤ 19999999999) }
{
    if words::is_minus(w) {
        w + box_word(desk)
    } else {
        w
    }
}
