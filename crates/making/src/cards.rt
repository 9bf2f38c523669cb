// The cards of the deck, written one behind the other into what is left of the output.
ghost use Rattle.std.specs.Prelude.{◌≡◌, ◌+◌, ◌*◌, ◌≤◌, length};
ghost use Rattle.rules.specs.Drum.{view};
ghost use Rattle.rules.specs.Cards.{data_card};
ghost use Rattle.rules.specs.Orders.{words_from};
ghost use Rattle.rules.specs.Running.{over};
ghost use Rattle.rules.specs.Making.{deck_made};
ghost use Rattle.octets.specs.Put.{splice};
ghost use Rattle.making.specs.Made.{Sound, cards_of};

use crate::blocks::Blocks;

// The card of the n cells from a on, at a place of the output.
fn write_card(
    drum: &[u64],
    marks: &[u8],
    out: &mut [u8],
    at: usize,
    number: u64,
    a: usize,
    n: usize,
    problem: u64,
)
    requires sound { Sound drum.now marks.now }
    requires block_fits { (1 ≤ a) × (a + n ≤ 1000) × (1 ≤ n) × (n ≤ 5) × (number ≤ 9999) × (problem ≤ 999) × (at + (11 + 11 * n) ≤ length out.old) }
    ensures { out.new
        ≡ splice at (data_card number a (words_from (view drum.now marks.now) a n) problem) out.old }
{
    let words = drum::first_words(drum, marks, a, n);
    card::write_data(&mut out[at..], number, a, words, n, problem);
}

// All data cards over the start of the output, numbered from 1; it answers how many bytes they are.
fn write_cards(drum: &[u64], marks: &[u8], out: &mut [u8], problem: u64) -> usize
    requires sound { Sound drum.now marks.now }
    requires problem_fits { problem ≤ 999 }
    requires room_left { length (cards_of drum.now marks.now problem) ≤ length out.old }
    ensures size { result ≡ length (cards_of drum.now marks.now problem) }
    ensures written { out.new ≡ over (cards_of drum.now marks.now problem) out.old }
{
    let mut at: usize = 0;
    let mut number: u64 = 1;
    for (a, n) in Blocks::of(drum, marks) {
        write_card(drum, marks, out, at, number, a, n, problem);
        at += 11 + 11 * n;
        number += 1;
    }
    at
}

// The whole deck over the start of the output: the data cards, then the first-order card.
pub(crate) fn write_deck(drum: &[u64], marks: &[u8], out: &mut [u8], order: usize, problem: u64)
    requires sound { Sound drum.now marks.now }
    requires order_fits { (1 ≤ order) × (order ≤ 999) × (problem ≤ 999) }
    requires room_left { length (deck_made (view drum.now marks.now) order problem) ≤ length out.old }
    ensures { out.new ≡ over (deck_made (view drum.now marks.now) order problem) out.old }
{
    let at = write_cards(drum, marks, out, problem);
    card::write_first(&mut out[at..], order, problem);
}
