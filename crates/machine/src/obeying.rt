// One order, from its cell on: its sums, its trace card, its code, the checks of its class, itself.
ghost use Rattle.std.specs.Prelude.{◌≡◌, ◌≤◌, ◌<◌, eqb};
ghost use Rattle.rules.specs.Machine.{Inputs};
ghost use Rattle.rules.specs.Orders.{performed};
ghost use Rattle.rules.specs.Running.{obeyed};
ghost use Rattle.rules.specs.Running.{step as step_of};
ghost use Rattle.codes.specs.Slots.{Indexed};
ghost use Rattle.drum.specs.Held.{Ready};
ghost use Rattle.machine.specs.Lent.{Lends, Does};
ghost use Rattle.machine.specs.Allowed.{Allowed, Begun, Shown, Told};

use crate::desk::Desk;
use crate::sums::{as_done, order_fits};
use crate::telling::trace;
use rules::{Checked, Done, Operation, Outcome, Refusal, Switches};
use words::Parts;

// What a run is lent that no order changes: the console's switches, the deck, and the codes, laid out for the run's mode.
#[derive(Clone, Copy)]
pub struct Given<'a> {
    pub switches: Switches,
    pub deck: &'a [u8],
    pub index: &'a [u16; 1010],
}

// An operation, once the checks of its class have passed. No plainer as closures: each takes another part of what is lent.
fn perform(
    drum: &mut [u64],
    marks: &mut [u8],
    out: &mut [u8],
    desk: &mut Desk,
    given: Given,
    o: Operation,
    a: usize,
    b: usize,
    c: usize,
) -> Outcome
    requires ready { Ready drum.old marks.old × Begun out.old desk.old }
    requires order_allowed { (b < 1000) × (c < 1000) × Allowed o a b c }
    ensures { (i : Inputs) → Lends given.entry.deck.now given.entry.switches i →
        Does i drum.old marks.old out.old desk.old
        drum.new marks.new out.new desk.new result (λ m. performed i m o a b c) }
{
    match o {
        Operation::Reckon(k) => crate::reckoning::reckon_at(
            drum,
            marks,
            desk,
            given.switches,
            k,
            a,
            b,
            c,
        ),
        Operation::Move => {
            crate::reckoning::move_word(drum, marks, desk, b, c);
            Ok(Done::GoesOn)
        }
        Operation::Go(g) => crate::going::go(drum, marks, desk, given.switches, g, b, c),
        Operation::Loop(x, y, z) => {
            crate::looping::go_round(desk, x, y, z, b, c);
            Ok(Done::GoesOn)
        }
        Operation::Change(k, x) => crate::changing::change(drum, marks, desk, k, x, b, c),
        Operation::Read => crate::reading::read(drum, marks, desk, b, c, given.deck),
        Operation::Pch => crate::punching::punch(drum, marks, out, desk, b, c),
        Operation::Trace(k) => {
            crate::tracing::retrace(drum, marks, desk, k);
            Ok(Done::GoesOn)
        }
        Operation::MoveBlock => {
            crate::moving::move_block(drum, marks, desk, a, b, c);
            Ok(Done::GoesOn)
        }
        Operation::Compare(x) => {
            crate::comparing::compare(drum, marks, desk, x, a, b, c);
            Ok(Done::GoesOn)
        }
    }
}

// The order w as it is done: its code, the checks of its class, itself.
fn obey(
    drum: &mut [u64],
    marks: &mut [u8],
    out: &mut [u8],
    desk: &mut Desk,
    given: Given,
    w: u64,
) -> Outcome
    requires ready { Ready drum.old marks.old × Begun out.old desk.old }
    requires indexed { Indexed (eqb desk.old.state.mode 1) given.index.now }
    ensures { (i : Inputs) → Lends given.entry.deck.now given.entry.switches i →
        Does i drum.old marks.old out.old desk.old
        drum.new marks.new out.new desk.new result (λ m. obeyed i m w) }
{
    let Parts { key, b, c } = words::parts_of(w);
    let a = key % 1000;
    let slot = codes::slot_of(key as u64);
    // Tried with `ok_or` and `?`: slower, by up to twenty instructions an order.
    let Some((o, k)) = codes::built_at(given.index, slot) else {
        return Err(Refusal::NotBuilt);
    };
    drum::check(drum, marks, k, a, b, c)?;
    perform(drum, marks, out, desk, given, o, a, b, c)
}

// While tracing is on, the trace card of the order w, done as x, if there is room for it.
fn tell(drum: &[u64], marks: &[u8], out: &mut [u8], desk: &mut Desk, w: u64, x: u64) -> Checked
    requires { Begun out.old desk.old × (1 ≤ desk.old.state.location) × (w ≤ 19999999999) × (x ≤ 19999999999) }
    ensures { Told drum.now marks.now out.old desk.old out.new desk.new w x result }
{
    if desk.state.tracing == 1 {
        let at = desk.written;
        if out.len() - at < 77 {
            return Err(Refusal::NoRoom);
        }
        trace(drum, marks, out, desk, w, x);
    }
    Ok(())
}

// One order: its location, its cell, its sums, its trace card, itself.
pub fn step(
    drum: &mut [u64],
    marks: &mut [u8],
    out: &mut [u8],
    desk: &mut Desk,
    given: Given,
) -> Outcome
    requires shown { Shown drum.old marks.old out.old desk.old }
    requires indexed { Indexed (eqb desk.old.state.mode 1) given.index.now }
    ensures { (i : Inputs) → Lends given.entry.deck.now given.entry.switches i →
        Does i drum.old marks.old out.old desk.old
        drum.new marks.new out.new desk.new result (λ m. step_of i m) }
{
    let l = desk.state.location;
    if l == 0 || 999 < l {
        return Err(Refusal::BadAddress);
    }
    let w = drum::cell(drum, marks, l).ok_or(Refusal::Unmarked)?;
    if !order_fits(desk, w) {
        return Err(Refusal::BadAddress);
    }
    let x = as_done(desk, w);
    tell(drum, marks, out, desk, w, x)?;
    obey(drum, marks, out, desk, given, x)
}
