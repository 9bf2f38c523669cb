// How a listing goes on from card to card, and how it ends.
ghost use Rattle.std.specs.Prelude.{◌≡◌};
ghost use Rattle.list.specs.Listing.{none_seen, with_kind, is_second, wrong_in, wrong_met, end_line, last_line};

use crate::kinds::stop_bad;
use faults::{Line, sum};
use octets::byte_at;
use rules::{Card, Fault};

// What has been listed of a file: how many cards, whether one is a first-order card, and whether one stands in no deck.
#[derive(Clone, Copy, Debug, PartialEq, Eq)]
pub struct Seen {
    pub cards: usize,
    pub first: bool,
    pub other: bool,
}

// Nothing.
pub fn none_seen() -> Seen
    ensures { result ≡ none_seen }
{
    Seen {
        cards: 0,
        first: false,
        other: false,
    }
}

// With the card more that has this kind.
pub fn with_kind(seen: Seen, kind: u8) -> Seen
    ensures { result ≡ with_kind seen kind }
{
    let cards = sum(seen.cards, 1);
    match kind {
        b'T' => Seen {
            cards,
            first: true,
            ..seen
        },
        b'X' | b'Z' => Seen {
            cards,
            other: true,
            ..seen
        },
        _ => Seen { cards, ..seen },
    }
}

// Whether a second first-order card begins there.
pub fn is_second(seen: Seen, rest: &[u8]) -> bool
    ensures { result ≡ is_second seen rest.now }
{
    seen.first && byte_at(rest, 0) == b'T'
}

// What is wrong with the bytes where no card begins.
fn wrong_in(rest: &[u8]) -> Card
    ensures { result ≡ wrong_in rest.now }
{
    let kind = byte_at(rest, 0);
    if kind == b'X' {
        if rest.len() < 77 {
            return Card::Bad(Fault::CutShort, 0);
        }
        return Card::Bad(Fault::BadByte, card::first_bad(rest, 6, 77));
    }
    if kind == b'Z' {
        if rest.len() < 24 {
            return Card::Bad(Fault::CutShort, 0);
        }
        return Card::Bad(Fault::BadByte, stop_bad(rest));
    }
    card::read_card(rest)
}

// The same where a second first-order card is wrong too.
fn wrong_met(seen: Seen, rest: &[u8]) -> Card
    ensures { result ≡ wrong_met seen rest.now }
{
    if is_second(seen, rest) {
        return Card::Bad(Fault::SecondFirst, 0);
    }
    wrong_in(rest)
}

// The line for the end of a file: none where a card of it stands in no deck, or where it may be a good deck.
fn end_line(seen: Seen, place: usize) -> Line
    ensures { result ≡ end_line seen place }
{
    if seen.other {
        return faults::empty();
    }
    if 65_536 < place {
        return faults::of_long();
    }
    if seen.first {
        return faults::empty();
    }
    faults::of_none(sum(seen.cards, 1), place)
}

// The last line of a listing that ends at a place, where the rest of the file is these bytes.
pub fn last_line(seen: Seen, place: usize, rest: &[u8]) -> Line
    ensures { result ≡ last_line seen place rest.now }
{
    match wrong_met(seen, rest) {
        Card::Bad(fault, o) => faults::of_card(sum(seen.cards, 1), place, fault, o, rest),
        Card::Data { .. } => end_line(seen, place),
        Card::First { .. } => end_line(seen, place),
        Card::End => end_line(seen, place),
    }
}
