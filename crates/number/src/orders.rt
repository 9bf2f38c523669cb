// The seven arithmetic orders by their names.
ghost use Rattle.std.specs.Prelude.{◌≡◌};
ghost use Rattle.rules.specs.Orders.{reckoned_by, loss_by};

use crate::losses::lost;
use crate::sums::{difference, sum};
use rules::{Reckoned, Reckoning};

// What an order makes of the words x at A and y at B.
pub fn reckon(k: Reckoning, x: u64, y: u64) -> Reckoned
    ensures { result ≡ reckoned_by k x y }
{
    match k {
        Reckoning::Add => sum(x, y),
        Reckoning::Sub => difference(x, y),
        Reckoning::Mpy => crate::mpy(x, y),
        Reckoning::Div => crate::div(x, y),
        Reckoning::Ngmpy => crate::ngmpy(x, y),
        Reckoning::Sqrt => crate::sqrt(y),
        Reckoning::Abs => crate::abs(y),
    }
}

// How many digits went, by the answer: only additions and subtractions tell of them.
pub fn lost_by(k: Reckoning, x: u64, y: u64, answer: Reckoned) -> u64
    ensures { result ≡ loss_by k x y answer }
{
    match k {
        Reckoning::Add | Reckoning::Sub => lost(x, y, answer),
        _ => 0,
    }
}
