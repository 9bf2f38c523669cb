// Address changes: one address of the word at B, and what a sum carries from it.
ghost use Rattle.std.specs.Prelude.{◌≡◌, ◌<◌, ◌≤◌};
ghost use Rattle.rules.specs.Drum.{word_at};
ghost use Rattle.rules.specs.Orders.{carried, changed};
ghost use Rattle.drum.specs.Held.{Ready};
ghost use Rattle.machine.specs.Lent.{DoesQuietly};

use crate::desk::Desk;
use rules::{Address, Changing, Done, Outcome, Reckoned, Refusal};

// The word w with one of its addresses changed; or a refusal, where its ten digits do not hold the sum.
fn changed_word(k: Changing, x: Address, w: u64, c: u32) -> Reckoned
    requires { (w ≤ 19999999999) × (c < 1000) }
    ensures { result ≡ carried k x w c }
{
    let worth = words::worth_of(x);
    let digits = w % 10_000_000_000;
    let n = c as u64 * worth;
    match k {
        Changing::SetTo => {
            let old = words::address_in(x, w);
            let part = old * worth;
            let put = w - part + n;
            Ok(put)
        }
        Changing::AddTo => {
            let sum = digits + n;
            if 9_999_999_999 < sum {
                return Err(Refusal::BadAddress);
            }
            let more = w + n;
            Ok(more)
        }
        Changing::SubFrom => {
            if digits < n {
                return Err(Refusal::BadAddress);
            }
            let less = w - n;
            Ok(less)
        }
    }
}

// The word at b is changed, and the next order is the one behind this; or it is refused, and nothing is changed.
pub fn change(
    drum: &mut [u64],
    marks: &mut [u8],
    desk: &mut Desk,
    k: Changing,
    x: Address,
    b: usize,
    c: usize,
) -> Outcome
    requires { Ready drum.old marks.old × (desk.old.state.location ≤ 999) × (b < 1000) × (c < 1000) }
    ensures { DoesQuietly drum.old marks.old desk.old
        drum.new marks.new desk.new result (λ m. changed m b (carried k x (word_at m.cells b) c)) }
{
    let w = drum::word(drum, marks, b);
    let y = changed_word(k, x, w, c as u32)?;
    drum::keep(drum, marks, b, y);
    desk.go_on();
    Ok(Done::GoesOn)
}
