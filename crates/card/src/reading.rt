// One card, read from what is left of a deck, or at a place of it.
ghost use Rattle.std.specs.Prelude.{◌≡◌, ◌-◌};
ghost use Rattle.rules.specs.Cards.{bad_from, word_in, word_place, card_of};
ghost use Rattle.rules.specs.Decks.{card_at};

use crate::fields::{cells_fit, form_of, is_due};
use octets::{byte_at, number_in};
use rules::{Card, Fault};

// The first place of a card of n words whose byte is not the one due. Where there is none it is the place behind them, as its promise says,
// and so no Option. Bytes past the end count as 0.
pub fn first_bad(rest: &[u8], n: usize, size: usize) -> usize
    ensures { result ≡ bad_from n rest.now 1 (size - 1) }
{
    for o in 1..size {
        if !is_due(n, o, byte_at(rest, o)) {
            return o;
        }
    }
    size.max(1)
}

// The card at the start of what is left of a deck, or what is wrong with it.
pub fn read_card(rest: &[u8]) -> Card
    ensures { result ≡ card_of rest.now }
{
    if rest.len() == 0 {
        return Card::End;
    }
    let kind = rest[0];
    let Some(form) = form_of(kind) else {
        return Card::Bad(Fault::UnknownKind, 0);
    };
    if rest.len() < form.size {
        return Card::Bad(Fault::CutShort, 0);
    }
    let bad = first_bad(rest, form.words, form.size);
    if bad < form.size {
        return Card::Bad(Fault::BadByte, bad);
    }
    let location = number_in(rest, form.place, 3);
    if !cells_fit(location, form.cells) {
        return Card::Bad(Fault::BadPlace, form.place);
    }
    if kind == b'T' {
        let problem = number_in(rest, 4, 3);
        return Card::First {
            order: location as usize,
            problem,
        };
    }
    let number = number_in(rest, 1, 4);
    let problem = number_in(rest, 8 + 11 * form.words, 3);
    Card::Data {
        number,
        location: location as usize,
        words: form.words,
        problem,
        size: form.size,
    }
}

// The card at any place of a deck.
pub fn card_at(deck: &[u8], at: usize) -> Card
    ensures { result ≡ card_at deck.now at }
{
    if deck.len() < at {
        return Card::End;
    }
    read_card(&deck[at..])
}

// The word i of the card, as its bytes have it. Bytes past the end count as 0, so a word that lies past them is 0.
pub fn word_of(rest: &[u8], i: usize) -> u64
    ensures { result ≡ word_in rest.now (word_place i) }
{
    if rest.len() / 11 < i {
        return 0;
    }
    let at = 8 + 11 * i;
    let x = number_in(rest, at + 1, 10);
    if byte_at(rest, at) == b'-' {
        return x + 10_000_000_000;
    }
    x
}
