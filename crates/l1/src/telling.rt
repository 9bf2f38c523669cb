// What is told on standard output: cards, the Z card, the line of a refused call, the lines of cells, and that a deck is good. On standard
// error, what is wrong with a deck. `rt` writes to standard output, and `texts` to standard error.
ghost use Rattle.std.specs.Prelude.{◌≡◌, true, ◌≤◌, length};
ghost use Rattle.rules.specs.Drum.{view};
ghost use Rattle.rules.specs.Sheet.{closing};
ghost use Rattle.faults.specs.Sentences.{deck_line};
ghost use Rattle.list.specs.Marked.{marked_lines};
ghost use Rattle.says.specs.Told.{may_close};

use machine::Ran;
use rules::{Bar, Deck, DeckFault, Ending, State};
use shows::send;
use std::io::Print;
use std::rt::Files;

// The first n bytes of a room, which are the cards of a run in it.
pub fn send_cards(rt: &impl Print, texts: &impl Print, room: &[u8], n: usize, ran: Ran) -> bool
    requires { (n ≡ ran.written) × (n ≤ length room.now) }
{
    send(rt, texts, &room[0..n])
}

// Bytes that are the closing of such a call.
fn send_closing(
    rt: &impl Print,
    texts: &impl Print,
    bytes: &[u8],
    ending: Ending,
    state: State,
    count: u64,
) -> bool
    requires { bytes.now ≡ closing ending state count }
{
    send(rt, texts, bytes)
}

// Bytes that are the lines of the marked cells, and of no other.
pub fn send_cells(
    rt: &impl Print,
    texts: &impl Print,
    bytes: &[u8],
    drum: &[u64],
    marks: &[u8],
) -> bool
    requires { bytes.now ≡ marked_lines (view drum.now marks.now) }
{
    send(rt, texts, bytes)
}

// The Z card of a run, or the line of one that was refused at its entry. It answers whether it was written.
pub fn tell(rt: &impl Print, texts: &impl Print, ending: Ending, state: State, count: u64) -> bool
    requires { may_close ending state count ≡ true }
{
    let mut text = [0u8; 64];
    let n = says::write_closing(&mut text, ending, state, count);
    send_closing(rt, texts, &text[..n], ending, state, count)
}

// The line of a call that was refused at its entry.
pub fn tell_bar(rt: &impl Print, texts: &impl Print, bar: Bar) {
    tell(rt, texts, Err(bar), states::none(), 0);
}

// A line that says what is wrong with a deck, on standard error.
fn say_fault(texts: &impl Print, line: &[u8], deck: &[u8], fault: DeckFault)
    requires { line.now ≡ deck_line deck.now fault }
{
    says::wrong(texts, line);
}

// What is wrong with a deck, as a sentence.
fn explain(texts: &impl Print, deck: &[u8], fault: DeckFault) {
    let line = faults::of_deck(deck, fault);
    say_fault(texts, line.text(), deck, fault);
}

// The line of a call that was refused at its entry. Where that is for its deck, the sentence that says why comes before it.
pub fn tell_refused(rt: &impl Print, texts: &impl Print, bar: Bar, deck: &[u8]) {
    match bar {
        Bar::BadDeck(f) => explain(texts, deck, f),
        Bar::BadDrum => (),
        Bar::BadState => (),
    }
    tell_bar(rt, texts, bar);
}

// What the check of a deck found.
fn tell_deck(rt: &impl Print, texts: &impl Print, found: Deck, deck: &[u8]) {
    match found {
        Ok(_) => {
            send(rt, texts, b"good");
        }
        Err(f) => tell_refused(rt, texts, Bar::BadDeck(f), deck),
    }
}

// The check of a deck alone.
pub fn check_deck(rt: &(impl Files + Print), texts: &impl Print, path: &[u8]) {
    let mut room = octets::room::<65537>();
    if let Some(n) = disk::read_whole(rt, texts, &mut room, path) {
        tell_deck(rt, texts, card::check_deck(&room[..n]), &room[..n]);
    }
}
