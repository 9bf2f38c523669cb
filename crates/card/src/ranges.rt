// What a card may say: whether each field is in range.
ghost use Rattle.std.specs.Prelude.{◌≡◌, length};
ghost use Rattle.card.specs.Written.{all_words, data_may, first_may, trace_may, stop_may};

use crate::fields::cells_fit;

// Whether all of these numbers are words.
fn all_words(words: &[u64]) -> bool
    ensures { result ≡ all_words words.now }
{
    words.iter().all(|w| *w <= 19_999_999_999)
}

// Whether a data card of the first n words may say this.
pub(crate) fn data_may(number: u64, location: usize, words: &[u64], n: usize, problem: u64) -> bool
    requires { length words.now ≡ 5 }
    ensures { result ≡ data_may number location words.now n problem }
{
    number <= 9999
        && 1 <= n
        && n <= 5
        && cells_fit(location as u64, n)
        && problem <= 999
        && all_words(&words[..n])
}

// Whether a first-order card may say this.
pub(crate) fn first_may(order: usize, problem: u64) -> bool
    ensures { result ≡ first_may order problem }
{
    cells_fit(order as u64, 1) && problem <= 999
}

// Whether a trace card may say this. It has six words, and its location is one cell, so that it is no data card of other numbers.
pub(crate) fn trace_may(number: u64, location: usize, words: &[u64], problem: u64) -> bool
    ensures { result ≡ trace_may number location words.now problem }
{
    number <= 9999 && cells_fit(location as u64, 1) && problem <= 999 && all_words(words)
}

// Whether a stop card may say this.
pub(crate) fn stop_may(number: u64, location: usize, count: u64, shown: u64) -> bool
    ensures { result ≡ stop_may number location count shown }
{
    number <= 99 && location <= 9999 && count <= 999_999 && shown <= 19_999_999_999
}
