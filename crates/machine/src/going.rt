// Stops and transfers.
ghost use Rattle.std.specs.Prelude.{◌≡◌, ◌≤◌, ◌<◌, Ok};
ghost use Rattle.rules.specs.Orders.{gone, linked};
ghost use Rattle.rules.specs.Machine.{Inputs, done};
ghost use Rattle.machine.specs.Lent.{DoesQuietly};

use crate::desk::Desk;
use rules::{Done, Going, Outcome, Stop, Switches};

// TR SUBR: the order at c is changed, and is the next.
fn link(drum: &mut [u64], marks: &mut [u8], desk: &mut Desk, b: usize, c: usize)
    requires { (b < 1000) × (c < 1000) }
    ensures { DoesQuietly drum.old marks.old desk.old
        drum.new marks.new desk.new (Ok Done.GoesOn) (λ m. done (linked m b c)) }
{
    let w = drum::word(drum, marks, c);
    let x = words::linked_word(w, b as u32);
    drum::keep(drum, marks, c, x);
    desk.go_to(c);
}

// One stop or transfer. No plainer as closures: each takes another part of what is lent.
pub fn go(
    drum: &mut [u64],
    marks: &mut [u8],
    desk: &mut Desk,
    switches: Switches,
    g: Going,
    b: usize,
    c: usize,
) -> Outcome
    requires { (desk.old.state.location ≤ 999) × (b < 1000) × (c < 1000) }
    ensures { (i : Inputs) → i.switches ≡ switches → DoesQuietly drum.old marks.old desk.old
        drum.new marks.new desk.new result (λ m. gone i m g b c) }
{
    match g {
        Going::UncStop => {
            let w = drum::word(drum, marks, b);
            Ok(Done::Stops(Stop::Unconditional, w))
        }
        Going::CondStop => {
            let w = drum::word(drum, marks, b);
            desk.go_to(c);
            if switches.stop {
                Ok(Done::Stops(Stop::Conditional, w))
            } else {
                Ok(Done::GoesOn)
            }
        }
        Going::TrSgn => {
            let w = drum::word(drum, marks, 0);
            let l = words::sign_target(w, b, c);
            desk.go_to(l);
            Ok(Done::GoesOn)
        }
        Going::TrExp => {
            let w = drum::word(drum, marks, 0);
            let next = desk.state.location + 1;
            let l = words::exponent_target(w, b, c, next);
            desk.go_to(l);
            Ok(Done::GoesOn)
        }
        Going::Tr => {
            desk.go_to(c);
            Ok(Done::GoesOn)
        }
        Going::TrSubr => {
            link(drum, marks, desk, b, c);
            Ok(Done::GoesOn)
        }
        Going::Noop => {
            desk.go_on();
            Ok(Done::GoesOn)
        }
    }
}
