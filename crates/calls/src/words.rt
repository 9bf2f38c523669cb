// What the words of a call say: the command, and behind the names of files the words that say how.
#![tactic(auto, unfolding(crate::specs::Words::command_of, crate::specs::Words::asked_by, rules::specs::Bytes::bytes))]

ghost use Rattle.std.specs.Prelude.{◌≡◌, ◌+◌, ◌*◌, ◌≤◌, min};
ghost use Rattle.calls.specs.Words.{command_of, behind_names, capped_number, asked_by};

use octets::is_digit;

// What is to be done.
#[derive(Clone, Copy, Debug, PartialEq, Eq)]
pub enum Command {
    Session,
    New,
    Load,
    Run,
    Deck,
    List,
    Cells,
    Make,
}

// What a word behind the names asks for. A number above 1,000,000 is told as 1,000,000, which no run and no deck takes.
#[derive(Clone, Copy, Debug, PartialEq, Eq)]
pub enum Asked {
    Traced,
    Stop,
    Budget(u64),
    First(u64),
    Problem(u64),
}

// What is wrong with a word.
#[derive(Clone, Copy, Debug, PartialEq, Eq)]
pub enum Trouble {
    Stray,
    Twice,
    NotNumber,
}

// The command that a word names. None says all that the error of a TryFrom could say.
pub fn command_of(word: &[u8]) -> Option<Command>
    ensures { result ≡ command_of word.now }
{
    if word == b"session".as_slice() {
        return Some(Command::Session);
    }
    if word == b"new".as_slice() {
        return Some(Command::New);
    }
    if word == b"load".as_slice() {
        return Some(Command::Load);
    }
    if word == b"run".as_slice() {
        return Some(Command::Run);
    }
    if word == b"deck".as_slice() {
        return Some(Command::Deck);
    }
    if word == b"list".as_slice() {
        return Some(Command::List);
    }
    if word == b"cells".as_slice() {
        return Some(Command::Cells);
    }
    if word == b"make".as_slice() {
        return Some(Command::Make);
    }
    None
}

// Where the words behind the names begin, in a call of so many words, of a command or of a word that names none. The second name of new may
// be left out.
pub fn behind_names(command: Option<Command>, count: usize) -> usize
    ensures { result ≡ behind_names command count }
{
    match command {
        Some(Command::New) if 3 < count => 4,
        Some(Command::Load | Command::Run) => 4,
        _ => 3,
    }
}

// The number x with a digit behind it, or 1,000,000 where that is larger.
fn with_digit(x: u64, d: u8) -> u64
    requires { x ≤ 1000000 }
    ensures { result ≡ min 1000000 (10 * x + d) }
{
    (10 * x + u64::from(d)).min(1_000_000)
}

// The number that decimal digits are, or 1,000,000 where it is larger; and whether they are a number.
#[tactic(auto, using(crate::proofs::Letters::digit_low, crate::proofs::Letters::left_begins, crate::proofs::Letters::left_none, crate::proofs::Letters::left_bad, crate::proofs::Letters::left_ends))]
fn number_of(text: &[u8]) -> Option<u64>
    ensures { result ≡ capped_number text.now }
{
    if text.is_empty() {
        return None;
    }
    let mut x = 0;
    for b in text {
        if !is_digit(*b) {
            return None;
        }
        x = with_digit(x, *b - b'0');
    }
    Some(x)
}

// What a word asks for, or what is wrong with it.
pub fn asked_by(word: &[u8]) -> Result<Asked, Trouble>
    ensures { result ≡ asked_by word.now }
{
    if word == b"traced".as_slice() {
        return Ok(Asked::Traced);
    }
    if word == b"stop".as_slice() {
        return Ok(Asked::Stop);
    }
    if let Some(text) = word.strip_prefix(b"budget=") {
        return number_of(text).map(Asked::Budget).ok_or(Trouble::NotNumber);
    }
    if let Some(text) = word.strip_prefix(b"first=") {
        return number_of(text).map(Asked::First).ok_or(Trouble::NotNumber);
    }
    if let Some(text) = word.strip_prefix(b"problem=") {
        return number_of(text)
            .map(Asked::Problem)
            .ok_or(Trouble::NotNumber);
    }
    Err(Trouble::Stray)
}
