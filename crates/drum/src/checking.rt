// Check 10: whether a lent drum and its marks may be used.
ghost use Rattle.std.specs.Prelude.{◌≡◌, leb, length};
ghost use Rattle.rules.specs.Words.{both};
ghost use Rattle.rules.specs.Drum.{cell_of, word_fits, view, drum_fits};

// Whether a mark is 0 or 1 and the number beside it a word. Beside a 0 the number is never looked at.
fn is_cell(mark: u8, number: u64) -> bool
    ensures { result ≡ both (leb mark 1) (word_fits (cell_of mark number)) }
{
    mark == 0 || mark == 1 && number <= 19_999_999_999
}

// Whether drum and marks are 1,000 long, each mark is 0 or 1, and each marked cell holds a word.
pub fn is_fit(drum: &[u64], marks: &[u8]) -> bool
    ensures { result ≡ drum_fits (length drum.now) marks.now (view drum.now marks.now) }
{
    if drum.len() != 1000 || marks.len() != 1000 {
        return false;
    }
    marks.iter().zip(drum).all(|(m, w)| is_cell(*m, *w))
}
