// The sentence for each fault of a card and of a deck, text behind text.
ghost use Rattle.std.specs.Prelude.{◌≡◌, ◌-◌, ◌++◌, take, drop};
ghost use Rattle.faults.specs.Lines.{as_far};
ghost use Rattle.faults.specs.Sentences.{head_of, found, card_sentence, card_line, long_line, none_line, deck_line};
ghost use Rattle.rules.specs.declared.Fault.TheVariants.{UnknownKind, CutShort, BadByte, BadPlace};

use crate::counts::{card_from_start, sum};
use crate::layout::{Due, Field, due_at, field_at, highest_of};
use crate::lines::{Line, empty};
use octets::byte_at;
use rules::{DeckFault, Fault};

// How each begins that is about a card.
fn head(k: usize, field: Field, due: Due, place: usize) -> Line
    ensures { result ≡ as_far (head_of k field due place) }
{
    empty()
        .with(b"card ")
        .with_number(k as u64)
        .with(b", its ")
        .with(field.name())
        .with(b": ")
        .with_due(due)
        .with(b" is due at byte ")
        .with_number(place as u64)
        .with(b", and ")
}

// The byte that is not the one due, behind such a beginning.
fn with_found(line: Line, b: u8) -> Line
    ensures { result ≡ as_far (line ++ found b) }
{
    line.with(b"the byte there is ").with_byte(b)
}

// That a kind is not known.
fn of_kind(k: usize, place: usize, rest: &[u8]) -> Line
    ensures { result ≡ as_far (card_sentence k place UnknownKind 0 rest.now) }
{
    let line = head(k, Field::Kind, Due::Kinds, place);
    with_found(line, byte_at(rest, 0))
}

// That a byte is not the one due.
fn of_byte(k: usize, place: usize, o: usize, rest: &[u8]) -> Line
    ensures { result ≡ as_far (card_sentence k place BadByte o rest.now) }
{
    let kind = byte_at(rest, 0);
    let line = head(k, field_at(kind, o), due_at(kind, o), sum(place, o));
    with_found(line, byte_at(rest, o))
}

// That a card is cut short.
fn of_cut(k: usize, place: usize, rest: &[u8]) -> Line
    ensures { result ≡ as_far (card_sentence k place CutShort 0 rest.now) }
{
    let kind = byte_at(rest, 0);
    let n = rest.len();
    head(k, field_at(kind, n), due_at(kind, n), sum(place, n))
        .with(b"the file ends there; the card begins at byte ")
        .with_number(place as u64)
}

// That a location or a first order is out of range, and the three digits there, or as many as there are.
fn of_place(k: usize, place: usize, o: usize, rest: &[u8]) -> Line
    ensures { result ≡ as_far (card_sentence k place BadPlace o rest.now) }
{
    let kind = byte_at(rest, 0);
    let due = Due::Upto(highest_of(kind));
    let found = rest_of(rest, o);
    head(k, field_at(kind, o), due, sum(place, o))
        .with(b"the digits there are ")
        .with(&found[..found.len().min(3)])
}

// What is wrong with a card, without the line end.
fn said_of(k: usize, place: usize, fault: Fault, o: usize, rest: &[u8]) -> Line
    ensures { result ≡ as_far (card_sentence k place fault o rest.now) }
{
    match fault {
        Fault::UnknownKind => of_kind(k, place, rest),
        Fault::SecondFirst => {
            head(k, Field::Kind, Due::DataKinds, place).with(b"the byte there is a second T")
        }
        Fault::CutShort => of_cut(k, place, rest),
        Fault::BadByte => of_byte(k, place, o, rest),
        Fault::BadPlace => of_place(k, place, o, rest),
    }
}

// What is wrong at the byte o of card k of a file, which begins at a place, and where the rest of the file is these bytes.
pub fn of_card(k: usize, place: usize, fault: Fault, o: usize, rest: &[u8]) -> Line
    ensures { result ≡ card_line k place fault o rest.now }
{
    said_of(k, place, fault, o, rest).with(b"\n")
}

// That a file is too long for a deck.
pub fn of_long() -> Line
    ensures { result ≡ long_line }
{
    empty().with(b"at most 65536 bytes are due in a deck, and the file is longer\n")
}

// That a file ends at a place without a first-order card; the next card would be card k.
pub fn of_none(k: usize, place: usize) -> Line
    ensures { result ≡ none_line k place }
{
    let line = head(k, Field::Kind, Due::TheFirst, place);
    line.with(b"the file ends there with no first-order card\n")
}

// What is left of a deck from a place on.
fn rest_of(deck: &[u8], at: usize) -> &[u8]
    ensures { result.now ≡ drop at deck.now }
{
    deck.get(at..).unwrap_or(&[])
}

// What is wrong with a deck.
pub fn of_deck(deck: &[u8], fault: DeckFault) -> Line
    ensures { result ≡ deck_line deck.now fault }
{
    match fault {
        DeckFault::TooLong => of_long(),
        DeckFault::At {
            card,
            fault: wrong,
            byte,
        } => of_card(
            card_from_start(deck, card),
            card,
            wrong,
            byte.saturating_sub(card),
            rest_of(deck, card),
        ),
        DeckFault::NoFirst(n) => of_none(card_from_start(deck, n), n),
    }
}
