// The machine state as nine numbers in a row, and back: location, the loop box's counts A, B and C, card counter, problem number, reader,
// mode and tracing. The machine file and the C face keep it so.
ghost use Rattle.std.specs.Prelude.{◌≡◌};
ghost use Rattle.rules.specs.States.{state_in, numbers_of};

use crate::State;

impl From<State> for [u64; 9] {
    ghost from_gives = { λ state row. row ≡ numbers_of state };

    fn from(state: State) -> [u64; 9] {
        let [a, b, c] = state.counts;
        [
            state.location as u64,
            a,
            b,
            c,
            state.counter,
            state.problem,
            state.reader as u64,
            state.mode,
            state.tracing,
        ]
    }
}

impl From<[u64; 9]> for State {
    ghost from_gives = { λ row state. state ≡ state_in row };

    fn from(row: [u64; 9]) -> State {
        let [location, a, b, c, counter, problem, reader, mode, tracing] = row;
        State {
            location: location as usize,
            counts: [a, b, c],
            counter,
            problem,
            reader: reader as usize,
            mode,
            tracing,
        }
    }
}
