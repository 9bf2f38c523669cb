// Check 12: the state that a run is given, with its budget and the deck that it is lent.
ghost use Rattle.std.specs.Prelude.{◌≡◌};
ghost use Rattle.rules.specs.Drum.{view};
ghost use Rattle.rules.specs.Running.{box_fits, state_fits};

use rules::State;

// Each count of the loop box has three digits.
fn box_fits(state: State) -> bool
    ensures { result ≡ box_fits state }
{
    state.counts[0] <= 999 && state.counts[1] <= 999 && state.counts[2] <= 999
}

// The place behind the deck's first-order card is `behind`.
pub fn state_fits(
    drum: &[u64],
    marks: &[u8],
    deck: &[u8],
    behind: usize,
    state: State,
    budget: u64,
) -> bool
    ensures { result ≡ state_fits (view drum.now marks.now) deck.now behind state budget }
{
    if 999_999 < budget || 1000 < state.location || !box_fits(state) {
        return false;
    }
    if 9999 < state.counter || 999 < state.problem {
        return false;
    }
    if 1 < state.mode || 1 < state.tracing || state.mode < state.tracing {
        return false;
    }
    drum::is_owned(drum, marks, 0) && card::may_stand(deck, behind, state.reader)
}
