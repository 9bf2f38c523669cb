// What an order's outcome means for its run.
ghost use Rattle.std.specs.Prelude.{◌≡◌};
ghost use Rattle.rules.specs.Numbers.{may_go_on, completed};

use rules::{Done, Outcome};

// Whether the next order may be begun.
pub fn may_go_on(x: Outcome) -> bool
    ensures { result ≡ may_go_on x }
{
    matches!(x, Ok(Done::GoesOn))
}

// How many orders were completed: a stop is one, an order that is undone is none.
pub fn completed_by(x: Outcome) -> u64
    ensures { result ≡ completed x }
{
    u64::from(x.is_ok())
}
