// PCH: a block of cells as data cards, five words a card.
ghost use Rattle.std.specs.Prelude.{◌≡◌, ◌+◌, ◌*◌, ◌-◌, ◌<◌, ◌≤◌, length};
ghost use Rattle.rules.specs.Machine.{Inputs, numbered, onward};
ghost use Rattle.rules.specs.Orders.{card_punched, cards_punched, punch_size, punched};
ghost use Rattle.machine.specs.Lent.{Sends, Does};
ghost use Rattle.machine.specs.Fives.{NextCard};

use crate::desk::Desk;
use rules::{Done, Outcome, Refusal, State};

// How many words the next card has.
fn at_most_five(n: usize) -> usize
    requires { 0 < n }
    ensures { NextCard n result }
{
    n.min(5)
}

// The counter rises, and the card of the n cells from b on is written.
fn punch_card(drum: &[u64], marks: &[u8], out: &mut [u8], desk: &mut Desk, b: usize, n: usize)
    requires block_fits { (1 ≤ b) × (b + n ≤ 1000) × (1 ≤ n) × (n ≤ 5) × (desk.old.written + (11 + 11 * n) ≤ length out.old) }
    ensures { (desk.new.state ≡ numbered desk.old.state) × (desk.new.written ≡ desk.old.written + (11 + 11 * n)) × Sends drum.now marks.now
        out.old desk.old out.new desk.new (λ m. card_punched m b n) }
{
    let at = desk.written;
    let words = drum::first_words(drum, marks, b, n);
    desk.number_next();
    let State {
        counter,
        problem,
        ..
    } = desk.state;
    card::write_data(&mut out[at..], counter, b, words, n, problem);
    desk.written = at + (11 + 11 * n);
}

// The cards of the n cells from b on, and on to the next order. A range with a step of five is no plainer: the last card may have fewer
// words, and the step would go past the block.
fn punch_cards(drum: &[u64], marks: &[u8], out: &mut [u8], desk: &mut Desk, b: usize, n: usize)
    requires located { desk.old.state.location ≤ 999 }
    requires block_fits { (1 ≤ b) × (b + n ≤ 1000) × (desk.old.written + punch_size n ≤ length out.old) }
    ensures { Sends drum.now marks.now out.old desk.old out.new desk.new
        (λ m. onward (cards_punched n m b n)) }
{
    let mut next = b;
    let mut left = n;
    while 0 < left {
        let k = at_most_five(left);
        punch_card(drum, marks, out, desk, next, k);
        next = next + k;
        left = left - k;
    }
    desk.go_on();
}

// PCH, once its checks have passed: all of its cards, if there is room for all.
pub fn punch(
    drum: &[u64],
    marks: &[u8],
    out: &mut [u8],
    desk: &mut Desk,
    b: usize,
    c: usize,
) -> Outcome
    requires located { desk.old.state.location ≤ 999 }
    requires block_fits { (1 ≤ b) × (b ≤ c) × (c < 1000) × (desk.old.written ≤ length out.old) }
    ensures { (i : Inputs) → Does i drum.now marks.now out.old desk.old
        drum.now marks.now out.new desk.new result (λ m. punched i m b (c + 1 - b)) }
{
    let n = c + 1 - b;
    let size = 11 * n + 11 * ((n + 4) / 5);
    let at = desk.written;
    if out.len() - at < size {
        return Err(Refusal::NoRoom);
    }
    punch_cards(drum, marks, out, desk, b, n);
    Ok(Done::GoesOn)
}
