// What cards are made of, as read: the form of each kind, and the byte that is due at each place.
ghost use Rattle.std.specs.Prelude.{◌≡◌, ◌≤◌};
ghost use Rattle.rules.specs.Cards.{sign_due, is_due, cells_fit};
ghost use Rattle.card.specs.Forms.{form_of};

use octets::is_digit;

// How a card is laid out: how many words and bytes it has, where its location stands and how many cells that names.
#[derive(Clone, Copy, Debug, PartialEq, Eq)]
pub(crate) struct Form {
    pub words: usize,
    pub size: usize,
    pub place: usize,
    pub cells: usize,
}

// The form of a kind, which is any byte that a deck has, and none of a kind that stands in no deck.
pub(crate) fn form_of(kind: u8) -> Option<Form>
    ensures { result ≡ form_of kind }
{
    match kind {
        b'1'..=b'5' => {
            let n = (kind - b'0') as usize;
            Some(Form {
                words: n,
                size: 11 + 11 * n,
                place: 5,
                cells: n,
            })
        }
        b'T' => Some(Form {
            words: 0,
            size: 7,
            place: 1,
            cells: 1,
        }),
        _ => None,
    }
}

// Whether a sign is due at place o of a card of n words.
pub fn sign_due(n: usize, o: usize) -> bool
    ensures { result ≡ sign_due n o }
{
    8 <= o && (o - 8) / 11 < n && (o - 8) % 11 == 0
}

// Whether the byte b is the one due at place o of a card of n words: a sign, or else a digit.
pub(crate) fn is_due(n: usize, o: usize, b: u8) -> bool
    ensures { result ≡ is_due n o b }
{
    if sign_due(n, o) {
        return b == b'+' || b == b'-';
    }
    is_digit(b)
}

// Whether so many cells from a location on are within 1 to 999.
pub(crate) fn cells_fit(location: u64, n: usize) -> bool
    requires { n ≤ 5 }
    ensures { result ≡ cells_fit location n }
{
    1 <= location && location <= 1000 && location + (n as u64) <= 1000
}
