// What sentences call the parts of a card, what is due, and the byte that stands there.
ghost use Rattle.std.specs.Prelude.{◌≡◌, [], ◌∷◌, ◌++◌};
ghost use Rattle.rules.specs.Cards.{digits};
ghost use Rattle.faults.specs.Lines.{as_far};
ghost use Rattle.faults.specs.Sentences.{is_letter, word_name, field_name, due_name, blank_name, byte_name};

use crate::layout::{Due, Field};
use crate::lines::Line;
use octets::{is_digit, put_field};

// The name of word i.
fn word_name(i: usize) -> &'static [u8]
    ensures { result.now ≡ word_name i }
{
    match i {
        0 => b"first word",
        1 => b"second word",
        2 => b"third word",
        3 => b"fourth word",
        4 => b"fifth word",
        _ => b"sixth word",
    }
}

impl Field {
    // Its name.
    pub(crate) fn name(self) -> &'static [u8]
        ensures { result.now ≡ field_name self }
    {
        match self {
            Field::Kind => b"kind",
            Field::CardNumber => b"card number",
            Field::Location => b"location",
            Field::Word(i) => word_name(i),
            Field::Problem => b"problem number",
            Field::FirstOrder => b"first order",
            Field::StopNumber => b"stop number",
            Field::Count => b"count",
            Field::Shown => b"word",
        }
    }
}

// Whether a byte is a letter.
fn is_letter(b: u8) -> bool
    ensures { result ≡ is_letter b }
{
    b.is_ascii_alphabetic()
}

impl Line {
    // With three digits of a number behind it.
    fn with_three(self, x: u64) -> Line
        ensures { result ≡ as_far (self ++ digits 3 x) }
    {
        let mut room = [0u8; 3];
        put_field(&mut room, 0, 3, x);
        self.with(&room)
    }

    // With what is due behind it.
    pub(crate) fn with_due(self, due: Due) -> Line
        ensures { result ≡ as_far (self ++ due_name due) }
    {
        match due {
            Due::Digit => self.with(b"a digit"),
            Due::Sign => self.with(b"a sign"),
            Due::Kinds => self.with(b"1 to 5 or T"),
            Due::DataKinds => self.with(b"1 to 5"),
            Due::TheFirst => self.with(b"T"),
            Due::Upto(n) => self.with(b"001 to ").with_three(n),
        }
    }

    // With the name of a byte behind it that cannot be seen.
    fn with_blank(self, b: u8) -> Line
        ensures { result ≡ as_far (self ++ blank_name b) }
    {
        match b {
            b'\t' => self.with(b"a tab"),
            b'\n' => self.with(b"a line end"),
            b'\r' => self.with(b"a carriage return"),
            b' ' => self.with(b"a space"),
            _ => self.with(b"number ").with_number(b as u64),
        }
    }

    // With a text and one byte behind it.
    fn with_seen(self, text: &[u8], b: u8) -> Line
        ensures { result ≡ as_far (self ++ (text.now ++ b ∷ [])) }
    {
        self.with(text).with(&[b])
    }

    // With the name of a byte behind it.
    pub(crate) fn with_byte(self, b: u8) -> Line
        ensures { result ≡ as_far (self ++ byte_name b) }
    {
        if b == b'+' {
            return self.with(b"a plus sign");
        }
        if b == b'-' {
            return self.with(b"a minus sign");
        }
        if is_digit(b) {
            return self.with_seen(b"a digit ", b);
        }
        if is_letter(b) {
            return self.with_seen(b"a letter ", b);
        }
        if b.is_ascii_graphic() {
            return self.with_seen(b"a mark ", b);
        }
        self.with_blank(b)
    }
}
