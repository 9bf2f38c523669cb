// Cards written over the start of what is left of an output. A card is written whole or, where a field is out of range or the room too
// small, not at all: there is one way not to be written, which a bool says as plainly as an Option. The four writers are a test, a length
// and what is put, so that one of them all with closures for these would be no shorter.
ghost use Rattle.std.specs.Prelude.{◌≡◌, ◌≤◌, length, take};
ghost use Rattle.rules.specs.Cards.{data_card, first_card, trace_card, stop_card};
ghost use Rattle.rules.specs.Running.{over};
ghost use Rattle.card.specs.Written.{data_may, first_may, trace_may, stop_may, Wrote};

use crate::parts::put_card;
use crate::ranges::{data_may, first_may, stop_may, trace_may};
use octets::{put_byte, put_field, put_word};

// A data card of the first n words, and whether it was written. Five words and how many of them are what its promise speaks of.
pub fn write_data(
    out: &mut [u8],
    number: u64,
    location: usize,
    words: [u64; 5],
    n: usize,
    problem: u64,
) -> bool
    ensures { Wrote (data_may number location words n problem) (data_card number location (take n words) problem)
        out.old result out.new }
{
    if !data_may(number, location, &words, n, problem) {
        return false;
    }
    if out.len() < 11 + 11 * n {
        return false;
    }
    put_card(
        out,
        b'0' + n as u8,
        number,
        location as u64,
        &words[..n],
        problem,
    );
    true
}

// The whole of a first-order card, over the start of the output.
fn put_first(out: &mut [u8], order: u64, problem: u64)
    requires { 7 ≤ length out.old }
    ensures { out.new ≡ over (first_card order problem) out.old }
{
    put_byte(out, 0, b'T');
    put_field(out, 1, 3, order);
    put_field(out, 4, 3, problem);
}

// A first-order card, and whether it was written.
pub fn write_first(out: &mut [u8], order: usize, problem: u64) -> bool
    ensures { Wrote (first_may order problem) (first_card order problem) out.old result out.new }
{
    if !first_may(order, problem) {
        return false;
    }
    if out.len() < 7 {
        return false;
    }
    put_first(out, order as u64, problem);
    true
}

// A trace card, and whether it was written.
pub fn write_trace(
    out: &mut [u8],
    number: u64,
    location: usize,
    words: [u64; 6],
    problem: u64,
) -> bool
    ensures { Wrote (trace_may number location words problem) (trace_card number location words problem) out.old result out.new }
{
    if !trace_may(number, location, &words, problem) {
        return false;
    }
    if out.len() < 77 {
        return false;
    }
    put_card(out, b'X', number, location as u64, &words, problem);
    true
}

// The whole of a stop card, over the start of the output.
fn put_stop(out: &mut [u8], number: u64, location: u64, count: u64, shown: u64)
    requires { 24 ≤ length out.old }
    ensures { out.new ≡ over (stop_card number location count shown) out.old }
{
    put_byte(out, 0, b'Z');
    put_field(out, 1, 2, number);
    put_field(out, 3, 4, location);
    put_field(out, 7, 6, count);
    put_word(out, 13, shown);
}

// A stop card, and whether it was written.
pub fn write_stop(out: &mut [u8], number: u64, location: usize, count: u64, shown: u64) -> bool
    ensures { Wrote (stop_may number location count shown) (stop_card number location count shown) out.old result out.new }
{
    if !stop_may(number, location, count, shown) {
        return false;
    }
    if out.len() < 24 {
        return false;
    }
    put_stop(out, number, location as u64, count, shown);
    true
}
