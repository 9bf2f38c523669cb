// Which cells go on which card, and how many bytes all cards are.
ghost use Rattle.std.specs.Prelude.{◌≡◌, ℕ, ◌≤◌, List, length};
ghost use Rattle.std.specs.Iterator.{YieldsFirstBy, item_count};
ghost use Rattle.rules.specs.Drum.{view};
ghost use Rattle.rules.specs.Making.{Block, neighbours, blocks_in, deck_made};
ghost use Rattle.making.specs.Made.{Long, block_of, blocks_left};

use std::marker::Model;

// How many cells a card has that begins at a: the marked ones from there on, one behind the other, up to five.
fn card_from(drum: &[u64], marks: &[u8], a: usize) -> usize
    requires { a ≤ 1000 }
    ensures size { result ≡ neighbours (view drum.now marks.now) a 5 }
    ensures few { result ≤ 5 }
{
    (a..a + 5)
        .take_while(|x| drum::is_owned(drum, marks, *x))
        .count()
}

// The blocks of a drum that go on a card each, from a cell on. An item is the first cell of one, and how many cells it has.
#[derive(Drop)]
pub(crate) struct Blocks<'a> {
    drum: &'a [u64],
    marks: &'a [u8],
    at: usize,
}

impl<'a> Model for Blocks<'a> {
    ghost Value = { List Block };

    ghost view = { λ b. blocks_left b.drum.now b.marks.now b.at };

    ghost invariant = { λ b. Long b.drum.now b.marks.now };
}

impl<'a> Blocks<'a> {
    // All of them.
    pub(crate) fn of(drum: &'a [u64], marks: &'a [u8]) -> Blocks<'a>
        requires { Long drum.now marks.now }
        ensures { result ≡ blocks_in (view drum.now marks.now) }
    {
        Blocks { drum, marks, at: 1 }
    }
}

impl<'a> Iterator for Blocks<'a> {
    type Item = (usize, usize);

    ghost next_gives = { YieldsFirstBy block_of (λ left. left) };

    ghost remaining = { item_count (λ left. left) };

    fn next(&mut self) -> Option<(usize, usize)> {
        while self.at < 1000 {
            let a = self.at;
            let n = card_from(self.drum, self.marks, a);
            if n > 0 {
                self.at = a + n;
                return Some((a, n));
            }
            self.at += 1;
        }
        None
    }
}

// How many bytes the deck has.
pub(crate) fn deck_size(drum: &[u64], marks: &[u8]) -> usize
    requires { Long drum.now marks.now }
    ensures { (order problem : ℕ) → result ≡ length (deck_made (view drum.now marks.now) order problem) }
{
    let mut size: usize = 7;
    for (_, n) in Blocks::of(drum, marks) {
        size += 11 + 11 * n;
    }
    size
}
