// A whole run: order after order, up to the budget.
ghost use Rattle.std.specs.Prelude.{◌≡◌};
ghost use Rattle.rules.specs.Running.{begun, ran};
ghost use Rattle.machine.specs.Lent.{Shows, Ended, RunRight, ended_as, barred_as, call_of, run_of};

use crate::Ran;
use crate::desk::Desk;
use crate::obeying::Given;
use rules::{Bar, Done, Outcome, State, Switches};

// What a run came to, by its last outcome and what is on the desk.
fn ended(o: Outcome, count: u64, desk: &Desk) -> Ran
    ensures { result ≡ ended_as o count desk.now }
{
    Ran {
        ending: Ok(o),
        count,
        written: desk.written,
        state: desk.state,
    }
}

// Orders up to the budget, from a machine that has passed the entry checks.
fn run_on(
    drum: &mut [u64],
    marks: &mut [u8],
    out: &mut [u8],
    desk: &mut Desk,
    budget: u64,
    switches: Switches,
    deck: &[u8],
) -> Ran
    requires { Shows drum.old out.old drum.old marks.old out.old desk.old
        (begun (call_of drum.old marks.old out.old deck.now desk.old.state budget switches)) }
    ensures { Ended drum.old out.old drum.new marks.new out.new result
        (run_of (call_of drum.old marks.old out.old deck.now desk.old.state budget switches)) }
{
    let index = codes::index(desk.state.mode == 1);
    let given = Given {
        switches,
        deck,
        index: &index,
    };
    for count in 0..budget {
        let o = crate::obeying::step(drum, marks, out, desk, given);
        if !stops::may_go_on(o) {
            return ended(o, count + stops::completed_by(o), desk);
        }
    }
    ended(Ok(Done::GoesOn), budget, desk)
}

// A call that is refused at its entry.
fn not_run(bar: Bar, state: State) -> Ran
    ensures { result ≡ barred_as bar state }
{
    Ran {
        ending: Err(bar),
        count: 0,
        written: 0,
        state,
    }
}

// A run on a lent drum, marks and output, with a deck, a state, a budget of orders and the console's switches.
pub fn run(
    drum: &mut [u64],
    marks: &mut [u8],
    out: &mut [u8],
    deck: &[u8],
    state: State,
    budget: u64,
    switches: Switches,
) -> Ran
    ensures { RunRight (ran (call_of drum.old marks.old out.old deck.now state budget switches))
        drum.new marks.new out.new result }
{
    if !drum::is_fit(drum, marks) {
        return not_run(Bar::BadDrum, state);
    }
    match card::check_deck(deck) {
        Err(f) => not_run(Bar::BadDeck(f), state),
        Ok(start) => {
            if crate::entering::state_fits(drum, marks, deck, start.behind, state, budget) {
                let mut desk = Desk { state, written: 0 };
                run_on(drum, marks, out, &mut desk, budget, switches, deck)
            } else {
                not_run(Bar::BadState, state)
            }
        }
    }
}
