// Block moves.
ghost use Rattle.std.specs.Prelude.{◌≡◌, ◌+◌, ◌-◌, ◌≤◌, ◌<◌, leb, Ok};
ghost use Rattle.rules.specs.Words.{pick};
ghost use Rattle.rules.specs.Machine.{done};
ghost use Rattle.rules.specs.Orders.{cells_moved, block_moved};
ghost use Rattle.drum.specs.Held.{Keeps};
ghost use Rattle.machine.specs.Lent.{DoesQuietly};

use crate::desk::Desk;
use rules::Done;

// Which of n words is moved in turn i: from the first on where the block goes down or stays, from the last on where it goes up.
fn word_in_turn(b: usize, c: usize, n: usize, i: usize) -> usize
    requires { i < n }
    ensures { (result ≡ pick (leb c b) i (n - 1 - i)) × (result < n) }
{
    if c <= b {
        return i;
    }
    n - 1 - i
}

// The n words from b upward go to c upward. They are moved in place, each before another is stored over it.
fn move_words(drum: &mut [u64], marks: &mut [u8], b: usize, c: usize, n: usize)
    requires { (b + n ≤ 1000) × (c + n ≤ 1000) }
    ensures { Keeps drum.old marks.old drum.new marks.new (λ v. cells_moved v n b c) }
{
    for i in 0..n {
        let k = word_in_turn(b, c, n, i);
        let w = drum::word(drum, marks, b + k);
        drum::keep(drum, marks, c + k, w);
    }
}

// MOVE with A not 000: the a words from b upward go to c upward.
pub fn move_block(drum: &mut [u64], marks: &mut [u8], desk: &mut Desk, a: usize, b: usize, c: usize)
    requires { (desk.old.state.location ≤ 999) × (b + a ≤ 1000) × (c + a ≤ 1000) }
    ensures { DoesQuietly drum.old marks.old desk.old
        drum.new marks.new desk.new (Ok Done.GoesOn) (λ m. done (block_moved m a b c)) }
{
    move_words(drum, marks, b, c, a);
    desk.go_on();
}
