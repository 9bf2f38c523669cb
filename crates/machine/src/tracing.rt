// Orders about tracing.
ghost use Rattle.std.specs.Prelude.{◌≡◌, ◌≤◌, Ok};
ghost use Rattle.rules.specs.Words.{pick};
ghost use Rattle.rules.specs.Orders.{retraced};
ghost use Rattle.rules.specs.Machine.{done};
ghost use Rattle.machine.specs.Lent.{Turned, DoesQuietly};

use crate::desk::Desk;
use rules::{Done, Tracing};

// In traced mode tracing is turned on or off; and on to the next order.
fn turn(desk: &mut Desk, on: bool)
    requires { desk.old.state.location ≤ 999 }
    ensures { Turned desk.old (pick on 1 0) desk.new }
{
    if desk.state.mode == 1 {
        desk.state.tracing = u64::from(on);
    }
    desk.go_on();
}

// One order about tracing. ST TR ERAS becomes a NOOP in its own cell. No plainer as closures: only that one has to do with the drum.
pub fn retrace(drum: &mut [u64], marks: &mut [u8], desk: &mut Desk, k: Tracing)
    requires { desk.old.state.location ≤ 999 }
    ensures { DoesQuietly drum.old marks.old desk.old
        drum.new marks.new desk.new (Ok Done.GoesOn) (λ m. done (retraced m k)) }
{
    match k {
        Tracing::StartTr => turn(desk, true),
        Tracing::StopTr => turn(desk, false),
        Tracing::StTrEras => {
            drum::keep(drum, marks, desk.state.location, 454_000_000);
            turn(desk, true);
        }
    }
}
