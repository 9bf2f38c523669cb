// The table laid out by slots, for the interpreter, which looks a code up for each order.
ghost use Rattle.std.specs.Prelude.{◌≡◌};
ghost use Rattle.codes.specs.Slots.{Indexed, built_in};

use crate::keys::slot_of;
use crate::rows::{built_of, code_at};
use rules::Built;

// At each slot the number of its code's row, once for a run: 40, behind the last, for a code that is not built. In traced mode PCH is NOOP.
// What an index has at each slot is promised as a number, so that it is no Option.
pub fn index(traced: bool) -> [u16; 1010]
    ensures { Indexed traced result }
{
    let mut index = [40u16; 1010];
    for i in 0..40 {
        let slot = slot_of(code_at(i));
        index[slot] = i as u16;
    }
    if traced {
        index[410] = index[454];
        return index;
    }
    index
}

// What an index has at a slot; nothing behind its last.
pub fn built_at(index: &[u16; 1010], slot: usize) -> Built
    ensures { result ≡ built_in index.now slot }
{
    if slot < 1010 {
        return built_of(index[slot]);
    }
    None
}
