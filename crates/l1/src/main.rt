// The program: one command for each call. Here the words of the call choose what is done; it is done by the other modules, over the
// libraries.
#![tactic(auto)]

mod call_words;
mod decks;
mod listings;
mod machines;
mod sessions;
mod telling;

use call_words::{name_at, options_of, word_at, word_count};
use calls::{Command, Options};
use octets::room;
use std::env::Env;
use std::io::Print;
use std::random::RandomSource;
use std::rt::Files;

// The command, on the files that the words behind it name.
fn obey(
    rt: &(impl Files + Env + Print + RandomSource),
    texts: &impl Print,
    command: Command,
    options: Options,
) {
    let mut name = room::<4096>();
    let Some(n) = name_at(rt, texts, &mut name, 2) else {
        return;
    };
    match command {
        Command::Session => sessions::session(rt, texts, &name[..n], options),
        Command::New => machines::new(rt, texts, &name[..n]),
        Command::Load => machines::load(rt, texts, &name[..n], options),
        Command::Run => machines::run(rt, texts, &name[..n], options),
        Command::Deck => telling::check_deck(rt, texts, &name[..n]),
        Command::List => shows::list(rt, texts, &name[..n]),
        Command::Cells => listings::cells(rt, texts, &name[..n]),
        Command::Make => decks::make(rt, texts, &name[..n], options),
    }
}

// A call of the program: `rt` has its words, the files and standard output, and `texts` writes to standard error.
fn call(rt: &(impl Files + Env + Print + RandomSource), texts: &impl Print) {
    let mut word = room::<4096>();
    let n = word_at(rt, &mut word, 1);
    let Some(command) = calls::command_of(&word[..n]) else {
        says::unknown(texts, &word[..n], word_count(rt));
        return;
    };
    match options_of(rt, texts, command) {
        Some(options) => obey(rt, texts, command, options),
        None => says::usage(texts, Some(command)),
    }
}

fn main(rt: HostRuntime) {
    call(&rt, &rt.stderr());
}
