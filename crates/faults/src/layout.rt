// Where a byte of a card stands, and what is due there.
ghost use Rattle.std.specs.Prelude.{◌≡◌, ◌-◌, ◌≤◌};
ghost use Rattle.faults.specs.Sentences.{words_of, data_field, stop_field, field_at, due_at, highest};

// A field of a card.
#[derive(Clone, Copy, Debug, PartialEq, Eq)]
pub enum Field {
    Kind,
    CardNumber,
    Location,
    Word(usize),
    Problem,
    FirstOrder,
    StopNumber,
    Count,
    Shown,
}

// What is due at a place: a digit or a sign; as a kind one of a deck, of a data card or of the first-order card; or a location up to one.
#[derive(Clone, Copy, Debug, PartialEq, Eq)]
pub enum Due {
    Digit,
    Sign,
    Kinds,
    DataKinds,
    TheFirst,
    Upto(u64),
}

// How many words a card of that kind has. A kind is a byte of any file, known or not, as the definitions have it, so an enum is no plainer.
fn words_of(kind: u8) -> usize
    ensures { (result ≡ words_of kind) × (result ≤ 6) }
{
    match kind {
        b'1'..=b'5' => (kind - b'0') as usize,
        b'X' => 6,
        _ => 0,
    }
}

// The field of the byte o of a stop card.
fn stop_field(o: usize) -> Field
    ensures { result ≡ stop_field o }
{
    if o < 3 {
        return Field::StopNumber;
    }
    if o < 7 {
        return Field::Location;
    }
    if o < 13 {
        return Field::Count;
    }
    Field::Shown
}

// The field of the byte o of a card of n words.
fn data_field(n: usize, o: usize) -> Field
    requires { n ≤ 6 }
    ensures { result ≡ data_field n o }
{
    if o < 5 {
        return Field::CardNumber;
    }
    if o < 8 {
        return Field::Location;
    }
    if o < 8 + 11 * n {
        return Field::Word((o - 8) / 11);
    }
    Field::Problem
}

// The field of the byte o of a card.
pub(crate) fn field_at(kind: u8, o: usize) -> Field
    ensures { result ≡ field_at kind o }
{
    if kind == b'T' {
        if o < 4 {
            return Field::FirstOrder;
        }
        return Field::Problem;
    }
    if kind == b'Z' {
        return stop_field(o);
    }
    data_field(words_of(kind), o)
}

// What is due at the byte o of a card.
pub(crate) fn due_at(kind: u8, o: usize) -> Due
    ensures { result ≡ due_at kind o }
{
    if kind == b'Z' {
        if o == 13 {
            return Due::Sign;
        }
        return Due::Digit;
    }
    if card::sign_due(words_of(kind), o) {
        return Due::Sign;
    }
    Due::Digit
}

// The highest location of a card, and the highest first order.
pub(crate) fn highest_of(kind: u8) -> u64
    ensures { result ≡ highest kind }
{
    match kind {
        b'1'..=b'5' => 1000 - ((kind - b'0') as u64),
        _ => 999,
    }
}
