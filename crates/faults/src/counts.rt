// Which card of a deck it is.
ghost use Rattle.std.specs.Prelude.{◌≡◌, ◌+◌};
ghost use Rattle.rules.specs.Decks.{card_at, card_size, cards_from};
ghost use Rattle.faults.specs.Sentences.{count_before, place_behind, card_from_start};

use rules::Card;

// A sum, or the largest number where it has too many digits.
pub fn sum(a: usize, b: usize) -> usize
    ensures { result ≡ place_behind a b }
{
    a.saturating_add(b)
}

// How many bytes the card at a place has; 0 where it has a fault, or there is none, as `card_size` of the rules has it: an Option is no plainer.
fn size_at(deck: &[u8], at: usize) -> usize
    ensures { result ≡ card_size (card_at deck.now at) }
{
    match card::card_at(deck, at) {
        Card::Data { size, .. } => size,
        Card::First { .. } => 7,
        Card::Bad(..) | Card::End => 0,
    }
}

// How many cards of a deck begin before a place, up to one with a fault. A step is a card's size; an iterator for this walk alone is no plainer.
fn count_before(deck: &[u8], place: usize) -> usize
    ensures { result ≡ count_before place (cards_from deck.now 0) }
{
    let mut at: usize = 0;
    let mut n: usize = 0;
    while at < place {
        let size = size_at(deck, at);
        if size == 0 {
            return n;
        }
        at += size;
        n += 1;
    }
    n
}

// Which card from the start begins at a place.
pub(crate) fn card_from_start(deck: &[u8], place: usize) -> usize
    ensures { result ≡ card_from_start deck.now place }
{
    sum(count_before(deck, place), 1)
}
