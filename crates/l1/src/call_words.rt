// The words of a call as the system has them: they are read, and what they ask for is gathered.
ghost use Rattle.std.specs.Prelude.{◌≡◌, Some, IfSome, List, ℕ};
ghost use Rattle.std.specs.Result.{result_ok};
ghost use Rattle.says.specs.Counts.{IsPrefixLen};
ghost use Rattle.calls.specs.Words.{with_word, Read, ReadToEnd};

use calls::{Command, Options, at_end, behind_names, lacks_first, start_of, with_word};
use std::env::{Env, FillError};
use std::io;
use std::io::Print;

// Whether a call has a word i.
fn has_word(rt: &impl Env, i: usize) -> bool {
    let mut start = [0u8; 1];
    !matches!(rt.arg(i, &mut start), Err(FillError::NotPresent))
}

// How many words a call has, the program's own name among them.
pub fn word_count(rt: &impl Env) -> usize {
    for i in 0..usize::MAX {
        if !has_word(rt, i) {
            return i;
        }
    }
    usize::MAX
}

// The word i of a call, at the start of the room: how many bytes it has. One that is missing or longer than the room has none.
pub fn word_at(rt: &impl Env, room: &mut [u8], i: usize) -> usize
    ensures { IsPrefixLen result room.new }
{
    rt.arg(i, room).unwrap_or(0)
}

// What a call asks for with one word more. A word that is wrong is said, and the call is then not to be obeyed.
fn take(texts: &impl Print, options: Options, word: &[u8]) -> Option<Options>
    ensures { result ≡ result_ok (with_word options word.now) }
{
    match with_word(options, word) {
        Ok(more) => Some(more),
        Err(trouble) => {
            says::refused(texts, word, Some(trouble));
            None
        }
    }
}

// With the word i of the call more, whatever its bytes are.
fn take_word(
    rt: &impl Env,
    texts: &impl Print,
    options: Options,
    room: &mut [u8],
    i: usize,
) -> Option<Options>
    ensures { (word : List ℕ) × (result ≡ result_ok (with_word options word)) }
{
    let n = word_at(rt, room, i);
    take(texts, options, &room[..n])
}

// What the words from a place on ask for, in a call of so many.
fn take_words(
    rt: &impl Env,
    texts: &impl Print,
    form: Options,
    from: usize,
    count: usize,
) -> Option<Options>
    ensures { Read (Some form) from count result }
{
    let mut room = octets::room::<131072>();
    let mut options = form;
    for i in from..count {
        options = take_word(rt, texts, options, &mut room, i)?;
    }
    Some(options)
}

// What a call of a command asks for. Where its words are wrong, that is said, and it is not to be obeyed.
pub fn options_of(rt: &impl Env, texts: &impl Print, command: Command) -> Option<Options>
    ensures { (count : ℕ) × ReadToEnd command count result }
{
    let count = word_count(rt);
    let Some(form) = start_of(Some(command), count) else {
        says::missing(texts);
        return None;
    };
    let options = take_words(rt, texts, form, behind_names(Some(command), count), count)?;
    if lacks_first(Some(options)) {
        says::no_first(texts);
    }
    at_end(Some(options))
}

// The system's numbers of two errors: that an argument is none, and that the name of a file is too long.
const INVALID_ARGUMENT: i32 = 22;

const NAME_TOO_LONG: i32 = 36;

// Why a word could not be read, as the system would tell it: there is no such word, or it is longer than the name of a file may be.
fn why_unread(trouble: FillError) -> io::Error {
    match trouble {
        FillError::NotPresent => io::Error::from_raw_os_error(INVALID_ARGUMENT),
        FillError::TooLong => io::Error::from_raw_os_error(NAME_TOO_LONG),
    }
}

// The word i as the name of a file, at the start of the room: how many bytes it has. Where it could not be read, that is said.
pub fn name_at(rt: &impl Env, texts: &impl Print, name: &mut [u8], i: usize) -> Option<usize>
    ensures { IfSome result (λ n. IsPrefixLen n name.new) }
{
    match rt.arg(i, name) {
        Ok(n) => Some(n),
        Err(trouble) => {
            says::failed(texts, b"a file's name", &why_unread(trouble));
            None
        }
    }
}
