// Load: the cards before the first-order card go onto the drum.
ghost use Rattle.rules.specs.Loads.{loaded};
ghost use Rattle.machine.specs.Lent.{LoadRight};

use crate::Loaded;
use crate::reading::store_cards;
use rules::{Bar, Start, State};

// Check 10 and the check of the deck come first, and a call that one of them refuses changes nothing.
pub fn load(drum: &mut [u64], marks: &mut [u8], deck: &[u8], state: State, traced: bool) -> Loaded
    ensures { LoadRight
        (loaded (record { drum = drum.old; marks = marks.old; deck = deck.now; state = state; traced = traced }))
        drum.new marks.new result }
{
    if !drum::is_fit(drum, marks) {
        return Loaded {
            loading: Err(Bar::BadDrum),
            state,
        };
    }
    match card::check_deck(deck) {
        Err(f) => Loaded {
            loading: Err(Bar::BadDeck(f)),
            state,
        },
        Ok(
            Start {
                behind,
                order,
                problem,
            },
        ) => {
            store_cards(drum, marks, deck, 0, behind);
            drum::keep(drum, marks, 0, 0);
            Loaded {
                loading: Ok(()),
                state: states::begin(behind, order, problem, traced),
            }
        }
    }
}
