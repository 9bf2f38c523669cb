// Load and run as the words of a call ask for them, on a lent drum and marks; and a whole session on an empty drum.
ghost use Rattle.std.specs.Prelude.{◌≡◌, length, IfSome};
ghost use Rattle.machine.specs.Lent.{call_of};
ghost use Rattle.rules.specs.Loads.{loaded};
ghost use Rattle.machine.specs.Lent.{LoadRight};
ghost use Rattle.calls.specs.Words.{is_traced, budget_of, switches_of};
ghost use Rattle.l1.specs.Going.{may_refill, gone_on, WentOn};
ghost use Rattle.l1.specs.New.{zeros};

use crate::telling::{send_cards, tell, tell_refused};
use calls::{Options, budget_of, is_traced, switches_of};
use machine::Loaded;
use octets::room;
use rules::{Ending, Refusal, State, Switches};
use std::io::Print;
use std::rt::Files;

// What a run came to, room after room, all its cards sent.
#[derive(Clone, Copy, Debug, PartialEq, Eq)]
pub struct Gone {
    pub ending: Ending,
    pub count: u64,
    pub state: State,
}

// Whether a run that ended so is to go on in an empty room: it was refused for want of room, and not with its first order, which would
// be refused again.
fn may_refill(ending: Ending, count: u64) -> bool
    ensures { result ≡ may_refill ending count }
{
    count != 0 && matches!(ending, Ok(Err(Refusal::NoRoom)))
}

// A run whose cards are sent as it goes on. Where the room is full the cards in it are sent, and the run goes on with the rest of its
// budget in the same room, empty again.
fn go_on(
    rt: &impl Print,
    texts: &impl Print,
    drum: &mut [u64],
    marks: &mut [u8],
    out: &mut [u8],
    deck: &[u8],
    state: State,
    budget: u64,
    switches: Switches,
) -> Option<Gone>
    ensures { IfSome result (WentOn (gone_on budget (call_of drum.old marks.old out.old deck.now state budget switches) 0)
        drum.new marks.new) }
{
    let mut count: u64 = 0;
    let mut left = budget;
    let mut st = state;
    loop {
        let x = machine::run(drum, marks, out, deck, st, left, switches);
        let done = x.count;
        count += done;
        if !send_cards(rt, texts, out, x.written, x) {
            return None;
        }
        if !may_refill(x.ending, done) {
            return Some(Gone {
                ending: x.ending,
                count,
                state: x.state,
            });
        }
        left -= done;
        st = x.state;
    }
}

// A run as a call asks for it: its budget, and the console's switches.
pub fn run_as(
    rt: &impl Print,
    texts: &impl Print,
    drum: &mut [u64],
    marks: &mut [u8],
    out: &mut [u8],
    deck: &[u8],
    state: State,
    options: Options,
) -> Option<Gone>
    ensures { IfSome result (WentOn (gone_on (budget_of options) (call_of drum.old marks.old out.old deck.now state (budget_of options) (switches_of options)) 0)
        drum.new marks.new) }
{
    go_on(
        rt,
        texts,
        drum,
        marks,
        out,
        deck,
        state,
        budget_of(options),
        switches_of(options),
    )
}

// A load as a call asks for it, plain or traced.
pub fn load_as(
    drum: &mut [u64],
    marks: &mut [u8],
    deck: &[u8],
    state: State,
    options: Options,
) -> Loaded
    ensures { LoadRight
        (loaded (record { drum = drum.old; marks = marks.old; deck = deck.now; state = state; traced = is_traced options }))
        drum.new marks.new result }
{
    machine::load(drum, marks, deck, state, is_traced(options))
}

// 1,000 cells of 0.
pub fn empty_drum() -> [u64; 1000]
    ensures zeros { result ≡ zeros }
    ensures size { 1000 ≡ length result }
{
    [0u64; 1000]
}

// A run behind its load: its cards, then the Z card.
fn play_on(
    rt: &impl Print,
    texts: &impl Print,
    drum: &mut [u64],
    marks: &mut [u8],
    deck: &[u8],
    state: State,
    options: Options,
) {
    let mut out = room::<65536>();
    if let Some(g) = run_as(rt, texts, drum, marks, &mut out, deck, state, options) {
        tell(rt, texts, g.ending, g.state, g.count);
    }
}

// A deck is loaded on an empty drum and run.
fn play(rt: &impl Print, texts: &impl Print, deck: &[u8], options: Options) {
    let mut drum = empty_drum();
    let mut marks = room::<1000>();
    let x = load_as(&mut drum, &mut marks, deck, states::none(), options);
    match x.loading {
        Ok(()) => play_on(rt, texts, &mut drum, &mut marks, deck, x.state, options),
        Err(bar) => tell_refused(rt, texts, bar, deck),
    }
}

// The deck at path is loaded on an empty drum and run.
pub fn session(rt: &(impl Files + Print), texts: &impl Print, path: &[u8], options: Options) {
    let mut room = room::<65537>();
    if let Some(n) = disk::read_whole(rt, texts, &mut room, path) {
        play(rt, texts, &room[..n], options);
    }
}
