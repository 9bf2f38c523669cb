// The types of the rules: what a cell, a card, an order, an answer is. What they mean is defined in specs/, in the order of the
// paper; the code of every other crate uses these types and is held to those definitions.
#![tactic(auto)]

mod rows;

// A cell as the job sees it: its word. One that it does not own has no content here.
pub type Cell = Option<u64>;

// Why an order, or arithmetic on two words, is refused.
#[derive(Clone, Copy, Debug, PartialEq, Eq)]
pub enum Refusal {
    BadAddress,
    Unmarked,
    NoRoom,
    NotBuilt,
    NotNumber,
    ZeroDivisor,
    NegativeRoot,
    OutOfRange,
    Unfit,
    NoCard,
}

// What arithmetic or the change of an address answers: the word to store, or why there is none.
pub type Reckoned = Result<u64, Refusal>;

// What is told of a sum or a difference: the answer, and how many digits went.
#[derive(Clone, Copy, Debug, PartialEq, Eq)]
pub struct Sum {
    pub answer: Reckoned,
    pub lost: u64,
}

// What is wrong with one card.
#[derive(Clone, Copy, Debug, PartialEq, Eq)]
pub enum Fault {
    UnknownKind,
    SecondFirst,
    CutShort,
    BadByte,
    BadPlace,
}

// One card at the start of what is left of a deck. Of a card with a fault the offending byte is told, counted from the card's kind byte.
#[derive(Clone, Copy, Debug, PartialEq, Eq)]
pub enum Card {
    Data {
        number: u64,
        location: usize,
        words: usize,
        problem: u64,
        size: usize,
    },
    First {
        order: usize,
        problem: u64,
    },
    Bad(Fault, usize),
    End,
}

// What is wrong with a deck: its length, the fault of the card at a place with the offending byte, or that it has no first-order card.
// Places are counted from the deck's start.
#[derive(Clone, Copy, Debug, PartialEq, Eq)]
pub enum DeckFault {
    TooLong,
    At {
        card: usize,
        fault: Fault,
        byte: usize,
    },
    NoFirst(usize),
}

// Where a run of a deck starts: the place behind its first-order card, and what that card says.
#[derive(Clone, Copy, Debug, PartialEq, Eq)]
pub struct Start {
    pub behind: usize,
    pub order: usize,
    pub problem: u64,
}

// A deck as checked: good, and where it starts, or faulty.
pub type Deck = Result<Start, DeckFault>;

// Arithmetic on the numbers at A and B, or at B.
#[derive(Clone, Copy, Debug, PartialEq, Eq)]
pub enum Reckoning {
    Add,
    Sub,
    Mpy,
    Div,
    Ngmpy,
    Sqrt,
    Abs,
}

// Stops and transfers.
#[derive(Clone, Copy, Debug, PartialEq, Eq)]
pub enum Going {
    UncStop,
    CondStop,
    TrSgn,
    TrExp,
    Tr,
    TrSubr,
    Noop,
}

// The three addresses of an order.
#[derive(Clone, Copy, Debug, PartialEq, Eq)]
pub enum Address {
    OfA,
    OfB,
    OfC,
}

// Changes of one address of the word at B.
#[derive(Clone, Copy, Debug, PartialEq, Eq)]
pub enum Changing {
    SetTo,
    AddTo,
    SubFrom,
}

// Orders about tracing.
#[derive(Clone, Copy, Debug, PartialEq, Eq)]
pub enum Tracing {
    StartTr,
    StopTr,
    StTrEras,
}

// The built operations, by family. Move is MOVE 000, MoveBlock is MOVE with A not 000. A loop says of the counts A, B and C whether it raises
// them.
#[derive(Clone, Copy, Debug, PartialEq, Eq)]
pub enum Operation {
    Reckon(Reckoning),
    Move,
    Go(Going),
    Loop(bool, bool, bool),
    Change(Changing, Address),
    Read,
    Pch,
    Trace(Tracing),
    MoveBlock,
    Compare(Address),
}

// Which of an order's addresses are used, and as what.
#[derive(Clone, Copy, Debug, PartialEq, Eq)]
pub enum Class {
    Free,
    TwoNumbers,
    OneNumber,
    OneWord,
    Changed,
    Linked,
    BlockOut,
    BlockIn,
    BlockMoved,
    Compared,
}

// A code as looked up in the table of built codes; nothing where it is not built.
pub type Built = Option<(Operation, Class)>;

// What the checks that go by the class found.
pub type Checked = Result<(), Refusal>;

// The machine state. Mode is 0 for plain and 1 for traced, tracing is 1 while it is on: numbers, since a state that C or a file brings may have
// any, which check 12 refuses, and such a state is handed back as it came.
#[derive(Clone, Copy, Debug, PartialEq, Eq)]
pub struct State {
    pub location: usize,
    pub counts: [u64; 3],
    pub counter: u64,
    pub problem: u64,
    pub reader: usize,
    pub mode: u64,
    pub tracing: u64,
}

// Whether the cards for READ fill its block: the place behind the last of them, or why they do not.
pub type Judged = Result<usize, Refusal>;

// The stops that an order makes: by itself, by the console's switch, or because its result has lost its digits.
#[derive(Clone, Copy, Debug, PartialEq, Eq)]
pub enum Stop {
    Unconditional,
    Conditional,
    Lost,
}

// What an order did, and so a run: it may go on, or it stopped and shows a word.
#[derive(Clone, Copy, Debug, PartialEq, Eq)]
pub enum Done {
    GoesOn,
    Stops(Stop, u64),
}

// What came of an order, and so of a run: it did this, or the order was refused.
pub type Outcome = Result<Done, Refusal>;

// How the console's switches stand for a run: PROGRAMMED STOP, true on STOP.
#[derive(Clone, Copy, Debug, PartialEq, Eq)]
pub struct Switches {
    pub stop: bool,
}

// Why a call of load or run does nothing at all.
#[derive(Clone, Copy, Debug, PartialEq, Eq)]
pub enum Bar {
    BadDrum,
    BadDeck(DeckFault),
    BadState,
}

// How a call of run ended: with its last outcome, or at its entry.
pub type Ending = Result<Outcome, Bar>;

// How a call of load ended.
pub type Loading = Result<(), Bar>;

// Why a call of make makes no deck.
#[derive(Clone, Copy, Debug, PartialEq, Eq)]
pub enum Unmade {
    UnfitDrum,
    UnfitNumber,
    Full,
}

// How a call of make ended: with a deck of so many bytes, or with none.
pub type Making = Result<usize, Unmade>;
