// What is wrong with a card or a deck, as a sentence that people read. Each function that is shown here takes any bytes and any numbers.
#![tactic(auto)]

mod counts;
mod layout;
mod lines;
mod names;
mod sentences;

pub use counts::sum;
pub use lines::{Line, empty};
pub use sentences::{of_card, of_deck, of_long, of_none};
