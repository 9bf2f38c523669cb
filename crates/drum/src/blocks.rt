// Blocks of neighbouring cells: the first and how many, two numbers of which the promises speak apart. A card has at most five words, and no
// memory is taken for them: so they are five, with zeros behind the last.
ghost use Rattle.std.specs.Prelude.{◌≡◌};
ghost use Rattle.rules.specs.Drum.{view};
ghost use Rattle.rules.specs.Codes.{owned_from};
ghost use Rattle.drum.specs.Blocks.{word_within, first_words};

// Whether the n cells from b on are marked, looked at upward.
pub fn all_owned(drum: &[u64], marks: &[u8], b: usize, n: usize) -> bool
    ensures { result ≡ owned_from (view drum.now marks.now) b n }
{
    let Some(end) = b.checked_add(n) else {
        return false;
    };
    (b..end).all(|a| crate::is_owned(drum, marks, a))
}

// Word i of the n cells from b on, and 0 past them.
fn word_within(drum: &[u64], marks: &[u8], b: usize, n: usize, i: usize) -> u64
    ensures { result ≡ word_within (view drum.now marks.now) b n i }
{
    if n <= i {
        return 0;
    }
    crate::word(drum, marks, b.saturating_add(i))
}

// The first five words of the n cells from b on, with zeros behind the last: as many as a card can have. It is rarely asked for, and that
// is told here and at `store_cards` of machine: without, orders of the bench were five to twelve instructions longer.
#[cold]
#[inline(never)]
pub fn first_words(drum: &[u64], marks: &[u8], b: usize, n: usize) -> [u64; 5]
    ensures { result ≡ first_words (view drum.now marks.now) b n }
{
    [0, 1, 2, 3, 4].map(|i| word_within(drum, marks, b, n, i))
}
