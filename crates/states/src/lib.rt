// The states that no run leaves: that of a machine that nothing was loaded on, and that which a load begins with.
#![tactic(auto)]

ghost use Rattle.std.specs.Prelude.{◌≡◌};
ghost use Rattle.rules.specs.Loads.{fresh};
ghost use Rattle.rules.specs.States.{no_state};

use rules::State;

// The state of a machine that nothing was loaded on: nine zeros.
pub fn none() -> State
    ensures { result ≡ no_state }
{
    State::from([0; 9])
}

// The state that a load leaves, by what stands on the first-order card; the reader is behind it.
pub fn begin(behind: usize, order: usize, problem: u64, traced: bool) -> State
    ensures { result ≡ fresh behind order problem traced }
{
    let mode = u64::from(traced);
    State {
        location: order,
        counts: [0; 3],
        counter: 0,
        problem,
        reader: behind,
        mode,
        tracing: mode,
    }
}
