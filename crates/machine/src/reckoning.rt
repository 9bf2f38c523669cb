// Arithmetic and MOVE 000: a result is stored at C and at 000.
ghost use Rattle.std.specs.Prelude.{◌≡◌, ◌<◌, ◌≤◌, ltb, Ok};
ghost use Rattle.rules.specs.Words.{both};
ghost use Rattle.rules.specs.Drum.{word_at};
ghost use Rattle.rules.specs.Machine.{Inputs, present, done, onward};
ghost use Rattle.rules.specs.Orders.{loss_by, resulted, reckoned_at, result_at};
ghost use Rattle.drum.specs.Held.{Ready};
ghost use Rattle.machine.specs.Lent.{DoesQuietly};

use crate::desk::Desk;
use rules::{Done, Outcome, Reckoning, Stop, Switches};

// The word w is the result of the order.
fn store_result(drum: &mut [u64], marks: &mut [u8], desk: &mut Desk, c: usize, w: u64)
    requires { (desk.old.state.location ≤ 999) × (c < 1000) × (w ≤ 19999999999) }
    ensures { DoesQuietly drum.old marks.old desk.old
        drum.new marks.new desk.new (Ok Done.GoesOn) (λ m. done (onward (result_at m c w))) }
{
    drum::keep(drum, marks, c, w);
    drum::keep(drum, marks, 0, w);
    desk.go_on();
}

// What comes of arithmetic on x and y with the result w: on STOP a loss of more than two digits stops the run.
fn outcome_of(switches: Switches, k: Reckoning, x: u64, y: u64, w: u64) -> Outcome
    ensures { result ≡ resulted (both switches.stop (ltb 2 (loss_by k x y (Ok w)))) w }
{
    if switches.stop && 2 < number::lost_by(k, x, y, Ok(w)) {
        return Ok(Done::Stops(Stop::Lost, w));
    }
    Ok(Done::GoesOn)
}

// Arithmetic on the words at a and b.
pub fn reckon_at(
    drum: &mut [u64],
    marks: &mut [u8],
    desk: &mut Desk,
    switches: Switches,
    k: Reckoning,
    a: usize,
    b: usize,
    c: usize,
) -> Outcome
    requires { (desk.old.state.location ≤ 999) × (c < 1000) }
    ensures { (i : Inputs) → i.switches ≡ switches → i.requests ≡ present →
        DoesQuietly drum.old marks.old desk.old drum.new marks.new desk.new result
        (λ m. reckoned_at i m k (word_at m.cells a) (word_at m.cells b) c) }
{
    let x = drum::word(drum, marks, a);
    let y = drum::word(drum, marks, b);
    let w = number::reckon(k, x, y)?;
    let o = outcome_of(switches, k, x, y, w);
    store_result(drum, marks, desk, c, w);
    o
}

// MOVE 000: the word at B, number or not.
pub fn move_word(drum: &mut [u64], marks: &mut [u8], desk: &mut Desk, b: usize, c: usize)
    requires { Ready drum.old marks.old × (desk.old.state.location ≤ 999) × (c < 1000) }
    ensures { DoesQuietly drum.old marks.old desk.old
        drum.new marks.new desk.new (Ok Done.GoesOn) (λ m. done (onward (result_at m c (word_at m.cells b)))) }
{
    let w = drum::word(drum, marks, b);
    store_result(drum, marks, desk, c, w);
}
