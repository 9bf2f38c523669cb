// What a call asks for beside its files: which words its command takes, and what those that came say.
ghost use Rattle.std.specs.Prelude.{◌≡◌};
ghost use Rattle.calls.specs.Words.{takes_none, form_of, given, is_given, given_or, with_asked, with_next, with_word, start_of, lacks_first, at_end};
ghost use Rattle.calls.specs.Words.{is_traced, switches_of, budget_of, first_of, problem_of};

use crate::words::{Asked, Command, Trouble, asked_by, behind_names};
use rules::Switches;

// Whether a word may come: not with this command, or once, or once and must; or what came with it, and then it may come no more.
#[derive(Clone, Copy, Debug, PartialEq, Eq)]
pub enum Turn<T> {
    Never,
    Open,
    Due,
    Given(T),
}

// What a call asks for beside its files, word by word. Two of the words have nothing behind them, and three a number.
#[derive(Clone, Copy, Debug, PartialEq, Eq)]
pub struct Options {
    pub traced: Turn<()>,
    pub stop: Turn<()>,
    pub budget: Turn<u64>,
    pub first: Turn<u64>,
    pub problem: Turn<u64>,
}

impl<T: Copy> Turn<T> {
    // The turn of a word that comes with this value, or what is wrong with that.
    fn given(self, value: T) -> Result<Turn<T>, Trouble>
        ensures { result ≡ given self value }
    {
        match self {
            Turn::Never => Err(Trouble::Stray),
            Turn::Open | Turn::Due => Ok(Turn::Given(value)),
            Turn::Given(_) => Err(Trouble::Twice),
        }
    }

    // Whether the word came.
    fn is_given(self) -> bool
        ensures { result ≡ is_given self }
    {
        matches!(self, Turn::Given(_))
    }

    // What came with the word, or another value where it did not come.
    fn given_or(self, other: T) -> T
        ensures { result ≡ given_or self other }
    {
        match self {
            Turn::Given(value) => value,
            Turn::Never | Turn::Open | Turn::Due => other,
        }
    }
}

// Of the words behind the names, none may come.
fn takes_none() -> Options
    ensures { result ≡ takes_none }
{
    Options {
        traced: Turn::Never,
        stop: Turn::Never,
        budget: Turn::Never,
        first: Turn::Never,
        problem: Turn::Never,
    }
}

// What a command takes. The one that makes a deck must be told a first order, and may be told a problem number.
fn form_of(command: Option<Command>) -> Options
    ensures { result ≡ form_of command }
{
    match command {
        Some(Command::Session) => Options {
            traced: Turn::Open,
            stop: Turn::Open,
            budget: Turn::Open,
            ..takes_none()
        },
        Some(Command::Load) => Options {
            traced: Turn::Open,
            ..takes_none()
        },
        Some(Command::Run) => Options {
            stop: Turn::Open,
            budget: Turn::Open,
            ..takes_none()
        },
        Some(Command::Make) => Options {
            first: Turn::Due,
            problem: Turn::Open,
            ..takes_none()
        },
        Some(Command::New | Command::Deck | Command::List | Command::Cells) | None => takes_none(),
    }
}

// What a call of so many words asks for, before the first word behind the names. Where a name is missing it is not to be obeyed.
pub fn start_of(command: Option<Command>, count: usize) -> Option<Options>
    ensures { result ≡ start_of command count }
{
    (behind_names(command, count) <= count).then_some(form_of(command))
}

// What a call asks for with a word more that asks for this, or what is wrong with the word, after those before it.
fn with_asked(options: Options, asked: Asked) -> Result<Options, Trouble>
    ensures { result ≡ with_asked options asked }
{
    Ok(match asked {
        Asked::Traced => Options {
            traced: options.traced.given(())?,
            ..options
        },
        Asked::Stop => Options {
            stop: options.stop.given(())?,
            ..options
        },
        Asked::Budget(n) => Options {
            budget: options.budget.given(n)?,
            ..options
        },
        Asked::First(n) => Options {
            first: options.first.given(n)?,
            ..options
        },
        Asked::Problem(n) => Options {
            problem: options.problem.given(n)?,
            ..options
        },
    })
}

// The same of any word, right or wrong, and of any call: one that is not to be obeyed takes no word more.
pub fn with_next(
    options: Option<Options>,
    asked: Result<Asked, Trouble>,
) -> Result<Options, Trouble>
    ensures { result ≡ with_next options asked }
{
    let asked = asked?;
    let options = options.ok_or(Trouble::Stray)?;
    with_asked(options, asked)
}

// The same of a word by its bytes.
pub fn with_word(options: Options, word: &[u8]) -> Result<Options, Trouble>
    ensures { result ≡ with_word options word.now }
{
    with_next(Some(options), asked_by(word))
}

// Whether a first order is all that a call lacks, after its last word.
pub fn lacks_first(options: Option<Options>) -> bool
    ensures { result ≡ lacks_first options }
{
    options.is_some_and(|options| matches!(options.first, Turn::Due))
}

// What a call asks for, after its last word. One that lacks a first order is not to be obeyed.
pub fn at_end(options: Option<Options>) -> Option<Options>
    ensures { result ≡ at_end options }
{
    if lacks_first(options) { None } else { options }
}

// Whether the load is to be a traced one.
pub fn is_traced(options: Options) -> bool
    ensures { result ≡ is_traced options }
{
    options.traced.is_given()
}

// The console's switches.
pub fn switches_of(options: Options) -> Switches
    ensures { result ≡ switches_of options }
{
    Switches {
        stop: options.stop.is_given(),
    }
}

// How many orders a run may do at most.
pub fn budget_of(options: Options) -> u64
    ensures { result ≡ budget_of options }
{
    options.budget.given_or(999_999)
}

// The first order for a deck, which a call of make is given; of another call 0.
pub fn first_of(options: Options) -> u64
    ensures { result ≡ first_of options }
{
    options.first.given_or(0)
}

// The problem number for a deck: the one given, or where none is, the machine's own.
pub fn problem_of(options: Options, own: u64) -> u64
    ensures { result ≡ problem_of options own }
{
    options.problem.given_or(own)
}
