// The deck that is made of a machine file's marked cells, on standard output. The machine file is only read.
ghost use Rattle.std.specs.Prelude.{length, ◌≡◌};
ghost use Rattle.l1.specs.Made.{MadeTold};

use crate::machines::hold;
use crate::sessions::empty_drum;
use calls::{Options, first_of, problem_of};
use octets::room;
use rules::State;
use shows::send;
use std::io::Print;
use std::rt::Files;

// Bytes that are what a call of make tells: the deck of these cells and marks with the numbers that the words of the call and the machine's
// state give, or the line of a call that is refused.
fn send_made(
    rt: &impl Print,
    texts: &impl Print,
    bytes: &[u8],
    drum: &[u64],
    marks: &[u8],
    state: State,
    options: Options,
) -> bool
    requires { MadeTold drum.now marks.now options state bytes.now }
{
    send(rt, texts, bytes)
}

// The deck of these cells and marks, or the line of a call that is refused.
fn make_of(
    rt: &impl Print,
    texts: &impl Print,
    drum: &[u64],
    marks: &[u8],
    state: State,
    options: Options,
) -> bool {
    let mut out = room::<13196>();
    let problem = problem_of(options, state.problem);
    let made = making::make(drum, marks, &mut out, first_of(options), problem);
    let n = says::write_making(&mut out, made);
    send_made(rt, texts, &out[..n], drum, marks, state, options)
}

// The deck of the machine file at path.
pub fn make(rt: &(impl Files + Print), texts: &impl Print, path: &[u8], options: Options) {
    let mut drum = empty_drum();
    let mut marks = room::<1000>();
    if let Some(state) = hold(rt, texts, &mut drum, &mut marks, path) {
        make_of(rt, texts, &drum, &marks, state, options);
    }
}
