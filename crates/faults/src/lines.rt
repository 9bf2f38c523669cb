// A line that is written text by text.
ghost use Rattle.std.specs.Prelude.{◌≡◌, [], ◌++◌};
ghost use Rattle.faults.specs.Lines.{as_far};
ghost use Rattle.faults.specs.Sentences.{numeral};

use octets::{copy, put_field, width_of};
use std::marker::Model;

// What is written, at the start of a room with zeros behind it, and how many bytes it has. A line has room for every sentence.
#[derive(Clone, Copy)]
pub struct Line {
    bytes: [u8; 256],
    size: usize,
}

// A line is the text that it says. No Display and write!: these answer a Result, where a line's text has room or is cut, and the chains of
// `with` read as the sentences do, so they would be no plainer.
impl Model for Line {
    ghost use Rattle.std.specs.Prelude.{ℕ, List, length};

    ghost Value = { List ℕ };

    ghost use Rattle.faults.specs.Rooms.{text_in, Kept, room_of, room_again};

    ghost view = { text_in };

    ghost invariant = { Kept };

    ghost inverse = { room_of };

    ghost inverse_ok = { room_again };
}

// A line that says nothing yet.
pub fn empty() -> Line
    ensures { result ≡ [] }
{
    Line {
        bytes: [0; 256],
        size: 0,
    }
}

impl Line {
    // What it says.
    pub fn text(&self) -> &[u8]
        ensures { result.now ≡ self.now }
    {
        &self.bytes[..self.size]
    }

    // With a text behind it, as far as there is room.
    pub(crate) fn with(self, text: &[u8]) -> Line
        ensures { result ≡ as_far (self ++ text.now) }
    {
        let mut bytes = self.bytes;
        let left = 256 - self.size;
        copy(&mut bytes, self.size, text, 0, left);
        Line {
            bytes,
            size: self.size + left.min(text.len()),
        }
    }

    // With a number behind it, in as many digits as it has.
    pub(crate) fn with_number(self, x: u64) -> Line
        ensures { result ≡ as_far (self ++ numeral x) }
    {
        let mut room = [0u8; 20];
        let n = width_of(x);
        put_field(&mut room, 0, n, x);
        self.with(&room[..n])
    }
}
