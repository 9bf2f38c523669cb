// The check of a deck.
ghost use Rattle.std.specs.Prelude.{◌≡◌};
ghost use Rattle.rules.specs.Decks.{deck_of};
ghost use Rattle.card.specs.Forms.{is_second};

use crate::fields::{cells_fit, form_of, is_due};
use octets::number_in;
use rules::{Deck, DeckFault, Fault, Start};

// Whether a card of this kind is a second first-order card; the deck is good so far if it has had one.
fn is_second(sofar: Deck, kind: u8) -> bool
    ensures { result ≡ is_second sofar kind }
{
    sofar.is_ok() && kind == b'T'
}

// Whether a deck is good, with what its first-order card says; else its first fault. The loop over cards is left with the answer; the
// loop over the bytes of a card, at the first that is not the one due, leaves it too. `sofar` is the answer if no more cards come. The
// outer loop goes by the sizes of cards, and so is no `for`.
pub fn check_deck(deck: &[u8]) -> Deck
    ensures { result ≡ deck_of deck.now }
{
    if 65_536 < deck.len() {
        return Err(DeckFault::TooLong);
    }
    let mut at: usize = 0;
    let mut sofar = Err(DeckFault::NoFirst(deck.len()));
    'cards: loop {
        if deck.len() <= at {
            break 'cards sofar;
        }
        let rest = &deck[at..];
        let kind = rest[0];
        if is_second(sofar, kind) {
            break 'cards Err(DeckFault::At {
                card: at,
                fault: Fault::SecondFirst,
                byte: at,
            });
        }
        let Some(form) = form_of(kind) else {
            break 'cards Err(DeckFault::At {
                card: at,
                fault: Fault::UnknownKind,
                byte: at,
            });
        };
        if rest.len() < form.size {
            break 'cards Err(DeckFault::At {
                card: at,
                fault: Fault::CutShort,
                byte: at,
            });
        }
        for o in 1..form.size {
            if !is_due(form.words, o, rest[o]) {
                break 'cards Err(DeckFault::At {
                    card: at,
                    fault: Fault::BadByte,
                    byte: at + o,
                });
            }
        }
        let location = number_in(rest, form.place, 3);
        if !cells_fit(location, form.cells) {
            break 'cards Err(DeckFault::At {
                card: at,
                fault: Fault::BadPlace,
                byte: at + form.place,
            });
        }
        at += form.size;
        if kind == b'T' {
            sofar = Ok(Start {
                behind: at,
                order: location as usize,
                problem: number_in(rest, 4, 3),
            });
        }
    }
}
