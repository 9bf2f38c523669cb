// Loops.
ghost use Rattle.std.specs.Prelude.{◌≡◌, List, ℕ, ◌+◌, ◌<◌, ◌≤◌, Ok};
ghost use Rattle.rules.specs.Orders.{raise, named, looped};
ghost use Rattle.rules.specs.Machine.{done};
ghost use Rattle.machine.specs.Lent.{DoesQuietly};

use crate::desk::Desk;
use rules::Done;

// A count, one up where the loop names it.
fn raised_by(x: bool, n: u64) -> u64
    requires { n ≤ 999 }
    ensures { result ≡ raise x n }
{
    n + u64::from(x)
}

// The same for the comparison, where a count that is not named is 0.
fn compared(x: bool, n: u64) -> u64
    requires { n ≤ 999 }
    ensures { result ≡ named x n }
{
    if x { n + 1 } else { 0 }
}

// The named counts are raised; while the largest of them is below b the next order is at c, and then the box is cleared.
pub fn go_round(desk: &mut Desk, x: bool, y: bool, z: bool, b: usize, c: usize)
    requires { (desk.old.state.location ≤ 999) × (b < 1000) }
    ensures { (drum marks : List ℕ) → DoesQuietly drum marks desk.old drum marks desk.new (Ok Done.GoesOn)
        (λ m. done (looped m x y z b c)) }
{
    let p = desk.state.counts[0];
    let q = desk.state.counts[1];
    let r = desk.state.counts[2];
    let most = compared(x, p).max(compared(y, q).max(compared(z, r)));
    if most < b as u64 {
        desk.go_to(c);
        desk.state.counts = [raised_by(x, p), raised_by(y, q), raised_by(z, r)];
    } else {
        desk.go_on();
        desk.state.counts = [0, 0, 0];
    }
}
