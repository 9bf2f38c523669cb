// The data cards of a deck from a place on, as READ takes them: whether they fill its block, and where a reader may stand.
ghost use Rattle.std.specs.Prelude.{◌≡◌};
ghost use Rattle.rules.specs.Decks.{judged_from, may_stand};

use crate::reading::card_at;
use rules::{Card, Judged, Refusal};

// Whether the cards from a place on fill the cells b to c, and where they end. Nothing is stored here. The last cell of a card is
// compared, and not the one behind it, since c may be any number. This loop is over once the block is filled, and that of `may_stand` at
// the first other card: an iterator over data cards would be longer than both.
pub fn judge(deck: &[u8], from: usize, b: usize, c: usize) -> Judged
    ensures { result ≡ judged_from deck.now from b c }
{
    let mut at = from;
    let mut next = b;
    while next <= c {
        let Card::Data {
            location,
            words,
            size,
            ..
        } = card_at(deck, at)
        else {
            return Err(Refusal::NoCard);
        };
        if location != next {
            return Err(Refusal::Unfit);
        }
        if c < next + words - 1 {
            return Err(Refusal::Unfit);
        }
        at += size;
        next += words;
    }
    Ok(at)
}

// Whether a reader may stand at the place r: where a data card begins, counted from the place `behind` on, or at the deck's end.
pub fn may_stand(deck: &[u8], behind: usize, r: usize) -> bool
    ensures { result ≡ may_stand deck.now behind r }
{
    if deck.len() == r {
        return true;
    }
    let mut at = behind;
    loop {
        let Card::Data { size, .. } = card_at(deck, at) else {
            return false;
        };
        if at == r {
            return true;
        }
        at += size;
    }
}
