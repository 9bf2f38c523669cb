// The paper's number for each answer, and the values that go with it. In code these numbers stand here and nowhere else; the rules
// define them.
#![tactic(auto)]

mod counts;

ghost use Rattle.std.specs.Prelude.{◌≡◌, Ok};
ghost use Rattle.rules.specs.Numbers.{fault_number, stop_number, making_written};
ghost use Rattle.stops.specs.Told.{refusal_told, reckoned_told, fault_told, check_told, bar_told, outcome_told, ending_told, loading_told, making_told};

pub use counts::{completed_by, may_go_on};
use rules::{
    Bar, Deck, DeckFault, Done, Ending, Fault, Loading, Making, Outcome, Reckoned, Refusal, Stop,
    Unmade,
};

// What is told of an answer: its number, and of the values that go with it the place and the word shown, each 0 where there is none.
#[derive(Clone, Copy, Debug, PartialEq, Eq)]
pub struct Told {
    pub number: u64,
    pub place: u64,
    pub shown: u64,
}

// Why an order, or arithmetic on words, is refused.
impl From<Refusal> for Told {
    ghost from_gives = { λ x told. told ≡ refusal_told x };

    fn from(x: Refusal) -> Told {
        let number = match x {
            Refusal::BadAddress => 20,
            Refusal::Unmarked => 21,
            Refusal::NoRoom => 22,
            Refusal::NotBuilt => 23,
            Refusal::NotNumber => 24,
            Refusal::ZeroDivisor => 25,
            Refusal::NegativeRoot => 26,
            Refusal::OutOfRange => 27,
            Refusal::Unfit => 28,
            Refusal::NoCard => 29,
        };
        Told {
            number,
            place: 0,
            shown: 0,
        }
    }
}

// Arithmetic on words: 0 and the word, or the refusal.
impl From<Reckoned> for Told {
    ghost from_gives = { λ x told. told ≡ reckoned_told x };

    fn from(x: Reckoned) -> Told {
        match x {
            Ok(shown) => Told {
                number: 0,
                place: 0,
                shown,
            },
            Err(why) => Told::from(why),
        }
    }
}

// What is wrong with a card.
fn fault_number(x: Fault) -> u64
    ensures { result ≡ fault_number x }
{
    match x {
        Fault::UnknownKind => 13,
        Fault::CutShort => 14,
        Fault::BadByte => 15,
        Fault::BadPlace => 16,
        Fault::SecondFirst => 17,
    }
}

// A faulty deck, and the place of its first fault.
impl From<DeckFault> for Told {
    ghost from_gives = { λ x told. told ≡ fault_told x };

    fn from(x: DeckFault) -> Told {
        let (number, place) = match x {
            DeckFault::TooLong => (11, 65536),
            DeckFault::At { fault, byte, .. } => (fault_number(fault), byte as u64),
            DeckFault::NoFirst(n) => (18, n as u64),
        };
        Told {
            number,
            place,
            shown: 0,
        }
    }
}

// A deck as checked: 0 and 0 where it is good.
impl From<Deck> for Told {
    ghost from_gives = { λ x told. told ≡ check_told x };

    fn from(x: Deck) -> Told {
        match x {
            Ok(_) => Told {
                number: 0,
                place: 0,
                shown: 0,
            },
            Err(why) => Told::from(why),
        }
    }
}

// A call of load or run that is refused at its entry.
impl From<Bar> for Told {
    ghost from_gives = { λ x told. told ≡ bar_told x };

    fn from(x: Bar) -> Told {
        let number = match x {
            Bar::BadDrum => 10,
            Bar::BadDeck(fault) => return Told::from(fault),
            Bar::BadState => 12,
        };
        Told {
            number,
            place: 0,
            shown: 0,
        }
    }
}

// The stops of orders.
fn stop_number(x: Stop) -> u64
    ensures { result ≡ stop_number x }
{
    match x {
        Stop::Unconditional => 0,
        Stop::Conditional => 1,
        Stop::Lost => 3,
    }
}

// What a run did, and the word it shows: +0 but for a stop.
impl From<Done> for Told {
    ghost from_gives = { λ x told. told ≡ outcome_told (Ok x) };

    fn from(x: Done) -> Told {
        let (number, shown) = match x {
            Done::GoesOn => (2, 0),
            Done::Stops(stop, w) => (stop_number(stop), w),
        };
        Told {
            number,
            place: 0,
            shown,
        }
    }
}

// What a run came to.
impl From<Outcome> for Told {
    ghost from_gives = { λ x told. told ≡ outcome_told x };

    fn from(x: Outcome) -> Told {
        match x {
            Ok(done) => Told::from(done),
            Err(why) => Told::from(why),
        }
    }
}

// A whole call of run.
impl From<Ending> for Told {
    ghost from_gives = { λ x told. told ≡ ending_told x };

    fn from(x: Ending) -> Told {
        match x {
            Ok(outcome) => Told::from(outcome),
            Err(bar) => Told::from(bar),
        }
    }
}

// A whole call of load: 0 where it is done.
impl From<Loading> for Told {
    ghost from_gives = { λ x told. told ≡ loading_told x };

    fn from(x: Loading) -> Told {
        match x {
            Ok(()) => Told {
                number: 0,
                place: 0,
                shown: 0,
            },
            Err(bar) => Told::from(bar),
        }
    }
}

// A whole call of make: 0, or why there is no deck.
impl From<Making> for Told {
    ghost from_gives = { λ x told. told ≡ making_told x };

    fn from(x: Making) -> Told {
        let number = match x {
            Ok(_) => 0,
            Err(Unmade::UnfitDrum) => 10,
            Err(Unmade::UnfitNumber) => 12,
            Err(Unmade::Full) => 22,
        };
        Told {
            number,
            place: 0,
            shown: 0,
        }
    }
}

// The bytes of the deck that a call of make made: none where it was refused.
pub fn making_written(x: Making) -> usize
    ensures { result ≡ making_written x }
{
    x.unwrap_or(0)
}
