// The words of a card at a place of the output, and the whole of a data or trace card. All else is left as it is.
ghost use Rattle.std.specs.Prelude.{◌≡◌, ◌∷◌, ◌++◌, ◌+◌, ◌*◌, ◌≤◌, length};
ghost use Rattle.rules.specs.Cards.{digits, words_bytes};
ghost use Rattle.rules.specs.Running.{over};
ghost use Rattle.octets.specs.Put.{splice};

use octets::{put_byte, put_field, put_word};

// Words, from place a on.
fn put_words(out: &mut [u8], a: usize, words: &[u64])
    requires { a + 11 * length words.now ≤ length out.old }
    ensures { out.new ≡ splice a (words_bytes words.now) out.old }
{
    for (i, w) in words.iter().enumerate() {
        put_word(out, a + 11 * i, *w);
    }
}

// The whole of a data or trace card, over the start of the output: kind, card number, location, words, problem number.
pub(crate) fn put_card(
    out: &mut [u8],
    kind: u8,
    number: u64,
    location: u64,
    words: &[u64],
    problem: u64,
)
    requires { 11 + 11 * length words.now ≤ length out.old }
    ensures { out.new ≡ over (kind ∷ digits 4 number ++ digits 3 location ++ words_bytes words.now ++ digits 3 problem) out.old }
{
    put_byte(out, 0, kind);
    put_field(out, 1, 4, number);
    put_field(out, 5, 3, location);
    put_words(out, 8, words);
    put_field(out, 8 + 11 * words.len(), 3, problem);
}
