// What is said to a person, on standard error, which is lent as `texts`. That a text cannot be written can be said nowhere.
ghost use Rattle.std.specs.Io.{StartsWith};

use calls::{Command, Trouble};
use std::io;
use std::io::{Cursor, Print, Write};

// A text as it is.
fn say(texts: &impl Print, text: &[u8]) {
    texts.write_all(text).is_ok();
}

// A text up to the number of an error of the system.
fn without_number(text: &[u8]) -> &[u8]
    ensures { StartsWith text.now result.now }
{
    for at in 0..text.len() {
        if text[at..].starts_with(b" (os error ") {
            return &text[..at];
        }
    }
    text
}

// Why a call of the system failed, in the system's words. The library puts the error's number behind them, which is left out.
fn say_why(texts: &impl Print, why: &io::Error) {
    let mut line = Cursor::new([0u8; 256]);
    write!(line, "{why}").is_ok();
    let size = (line.position() as usize).min(256);
    let room = line.into_inner();
    say(texts, without_number(&room[..size]));
}

// What can be called.
pub fn help(texts: &impl Print) {
    say(texts, b"usage: l1 COMMAND\n");
    say(texts, b"\n");
    say(texts, b"  l1 session DECK [traced] [stop] [budget=N]\n");
    say(
        texts,
        b"      loads DECK on an empty drum and runs it: its cards, then the Z card\n",
    );
    say(texts, b"  l1 new MACHINE [CELLS]\n");
    say(
        texts,
        b"      makes a machine file; CELLS is a text of 1,000 numbers, one for each cell\n",
    );
    say(texts, b"  l1 load MACHINE DECK [traced]\n");
    say(texts, b"      loads DECK on the machine file\n");
    say(texts, b"  l1 run MACHINE DECK [stop] [budget=N]\n");
    say(
        texts,
        b"      runs on the machine file: the cards, then the Z card\n",
    );
    say(texts, b"  l1 deck DECK\n");
    say(
        texts,
        b"      checks DECK: good, or the number and place of its first fault\n",
    );
    say(texts, b"  l1 list FILE\n");
    say(texts, b"      cards as lines that people read\n");
    say(texts, b"  l1 cells MACHINE\n");
    say(texts, b"      the marked cells, one to a line\n");
    say(texts, b"  l1 make MACHINE first=N [problem=N]\n");
    say(
        texts,
        b"      a load deck of the marked cells, with N as its first order\n",
    );
    say(texts, b"\n");
    say(
        texts,
        b"traced: the load is a traced one.  stop: the PROGRAMMED STOP switch is on STOP.\n",
    );
    say(
        texts,
        b"budget=N: at most N orders; 999999 where it is not given.\n",
    );
    say(texts, b"first=N: the first order of the deck, 1 to 999.\n");
    say(
        texts,
        b"problem=N: its problem number; the machine's own where it is not given.\n",
    );
}

// A word of the call, or a file by its name, and what is to be said of it.
fn say_of(texts: &impl Print, word: &[u8], what: &[u8]) {
    say(texts, b"l1: ");
    say(texts, word);
    say(texts, what);
}

// That the first word of a call of so many is no command, and what can be called.
pub fn unknown(texts: &impl Print, word: &[u8], count: usize) {
    if 1 < count {
        say_of(texts, word, b": no such command\n");
    }
    help(texts);
}

// How a command is called; where a word names none, how all are.
pub fn usage(texts: &impl Print, command: Option<Command>) {
    match command {
        Some(Command::Session) => say(
            texts,
            b"usage: l1 session DECK [traced] [stop] [budget=N]\n",
        ),
        Some(Command::New) => say(texts, b"usage: l1 new MACHINE [CELLS]\n"),
        Some(Command::Load) => say(texts, b"usage: l1 load MACHINE DECK [traced]\n"),
        Some(Command::Run) => say(texts, b"usage: l1 run MACHINE DECK [stop] [budget=N]\n"),
        Some(Command::Deck) => say(texts, b"usage: l1 deck DECK\n"),
        Some(Command::List) => say(texts, b"usage: l1 list FILE\n"),
        Some(Command::Cells) => say(texts, b"usage: l1 cells MACHINE\n"),
        Some(Command::Make) => say(texts, b"usage: l1 make MACHINE first=N [problem=N]\n"),
        None => help(texts),
    }
}

// A file, or another thing, that a call of the system failed on, and why.
pub fn failed(texts: &impl Print, what: &[u8], why: &io::Error) {
    say(texts, b"l1: ");
    say(texts, what);
    say(texts, b": ");
    say_why(texts, why);
    say(texts, b"\n");
}

// A word of the call, and what is wrong with it, if anything is. The word's bytes need not be text, so no Display writes them.
pub fn refused(texts: &impl Print, word: &[u8], trouble: Option<Trouble>) {
    match trouble {
        Some(Trouble::Stray) => say_of(texts, word, b": no word for this command\n"),
        Some(Trouble::Twice) => say_of(texts, word, b": given twice\n"),
        Some(Trouble::NotNumber) => say_of(texts, word, b": no decimal number\n"),
        None => say_of(texts, word, b"\n"),
    }
}

// A line that says what is wrong with a deck.
pub fn wrong(texts: &impl Print, line: &[u8]) {
    say(texts, b"l1: ");
    say(texts, line);
}

// That a name is missing.
pub fn missing(texts: &impl Print) {
    say(texts, b"l1: a file's name is missing\n");
}

// That a first order is missing.
pub fn no_first(texts: &impl Print) {
    say(texts, b"l1: first=N is missing\n");
}

// That a machine file is as it was.
pub fn kept(texts: &impl Print, path: &[u8]) {
    say_of(texts, path, b": not replaced\n");
}

// That a machine file is a new one, though the Z card was not written.
pub fn replaced(texts: &impl Print, path: &[u8]) {
    say_of(texts, path, b": replaced, but its Z card is not written\n");
}

// That a text of cells is too long to be read.
pub fn too_long(texts: &impl Print, path: &[u8]) {
    say_of(texts, path, b": more than 262144 bytes\n");
}

// That a text of cells is none.
pub fn not_cells(texts: &impl Print, path: &[u8]) {
    say_of(texts, path, b": not 1000 decimal numbers below 2^64\n");
}

// That a machine file is a link.
pub fn link(texts: &impl Print, path: &[u8]) {
    say_of(texts, path, b": a link; name the machine file itself\n");
}
