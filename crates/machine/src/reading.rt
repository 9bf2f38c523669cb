// READ, and what load shares with it: the data cards of a deck stored, one by one.
ghost use Rattle.std.specs.Prelude.{◌≡◌, ℕ, ◌+◌, ◌<◌, ◌≤◌};
ghost use Rattle.rules.specs.Cards.{word_in, word_place};
ghost use Rattle.rules.specs.Decks.{data_from, words_stored, cards_stored, judged_from};
ghost use Rattle.rules.specs.Machine.{Inputs};
ghost use Rattle.rules.specs.Orders.{read};
ghost use Rattle.drum.specs.Held.{Keeps};
ghost use Rattle.machine.specs.Lent.{DoesQuietly};

use crate::desk::Desk;
use rules::{Card, Done, Outcome};

// The words of the card at the start of d go to the cells from `location` on.
fn store_words(drum: &mut [u64], marks: &mut [u8], d: &[u8], location: usize, words: usize)
    requires cells_in { location + words ≤ 1000 }
    requires words_fit { (i : ℕ) → i < words → word_in d.now (word_place i) ≤ 19999999999 }
    ensures { Keeps drum.old marks.old drum.new marks.new
        (words_stored d.now location words) }
{
    for i in 0..words {
        let w = card::word_of(d, i);
        drum::keep(drum, marks, location + i, w);
    }
}

// The data cards from a place of the deck on that begin before another are stored, in order. A `for` is no plainer: the card that a turn
// stores says how far the next one is. That it is rare is told as at drum's `first_words`.
#[cold]
#[inline(never)]
pub fn store_cards(drum: &mut [u64], marks: &mut [u8], deck: &[u8], from: usize, end: usize)
    ensures { Keeps drum.old marks.old drum.new marks.new
        (cards_stored end (data_from deck.now from)) }
{
    let mut at = from;
    while at < end {
        let Card::Data {
            location,
            words,
            size,
            ..
        } = card::card_at(deck, at)
        else {
            return;
        };
        store_words(drum, marks, &deck[at..], location, words);
        at += size;
    }
}

// READ: its cards are judged to the last, and only then is the first stored.
pub fn read(
    drum: &mut [u64],
    marks: &mut [u8],
    desk: &mut Desk,
    b: usize,
    c: usize,
    deck: &[u8],
) -> Outcome
    requires { desk.old.state.location ≤ 999 }
    ensures { (i : Inputs) → i.deck ≡ deck.now → DoesQuietly drum.old marks.old desk.old
        drum.new marks.new desk.new result (λ m. read i m (judged_from i.deck m.state.reader b c)) }
{
    let reader = desk.state.reader;
    let end = card::judge(deck, reader, b, c)?;
    store_cards(drum, marks, deck, reader, end);
    desk.go_on();
    desk.state.reader = end;
    Ok(Done::GoesOn)
}
