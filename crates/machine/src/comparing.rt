// Address tests.
ghost use Rattle.std.specs.Prelude.{◌≤◌};
ghost use Rattle.rules.specs.Machine.{done};
ghost use Rattle.rules.specs.Orders.{compared_to};
ghost use Rattle.machine.specs.Lent.{DoesQuietly};

use crate::desk::Desk;
use rules::{Address, Done};

// TR A, TR B and TR C: where that address of the word at a is b the next order is the one behind this, else the one at c.
pub fn compare(
    drum: &[u64],
    marks: &[u8],
    desk: &mut Desk,
    x: Address,
    a: usize,
    b: usize,
    c: usize,
)
    requires { desk.old.state.location ≤ 999 }
    ensures { DoesQuietly drum.now marks.now desk.old
        drum.now marks.now desk.new (Ok Done.GoesOn) (λ m. done (compared_to m x a b c)) }
{
    let w = drum::word(drum, marks, a);
    let next = desk.state.location + 1;
    let l = words::address_target(x, w, b, c, next);
    desk.go_to(l);
}
