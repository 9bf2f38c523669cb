// The line for a call that was refused at its entry, written over the start of what is left of an output, or not at all.
ghost use Rattle.std.specs.Prelude.{◌≡◌, ◌∷◌, ◌++◌, ◌+◌, ◌≤◌, length};
ghost use Rattle.rules.specs.Cards.{digits, refusal_line};
ghost use Rattle.rules.specs.Running.{over};
ghost use Rattle.card.specs.Written.{WroteLine};

use octets::{put_byte, put_field, width_of};

// The whole of a line, over the start of the output: the number in a digits, a space, and the place in b digits.
fn put_line(out: &mut [u8], number: u64, a: usize, place: u64, b: usize)
    requires { a + 1 + b ≤ length out.old }
    ensures { out.new ≡ over (digits a number ++ 32 ∷ digits b place) out.old }
{
    put_field(out, 0, a, number);
    put_byte(out, a, b' ');
    put_field(out, a + 1, b, place);
}

// The line for a call that was refused at its entry: the number, a space and the place. It answers how many bytes it wrote,
// and 0 for none, as each line of a listing does.
pub fn write_line(out: &mut [u8], number: u64, place: usize) -> usize
    ensures { WroteLine (refusal_line number place) out.old result out.new }
{
    let a = width_of(number);
    let b = width_of(place as u64);
    let size = a + 1 + b;
    if out.len() < size {
        return 0;
    }
    put_line(out, number, a, place as u64, b);
    size
}
