// Punched cards: one card read from what is left of a deck, the check of a deck, its data cards judged for READ, and cards and lines
// written into what is left of an output. Each function that is shown here takes any bytes and any numbers. Fields are put by their widths:
// `write!` would want a type of its own around the lent output, and is no plainer.
#![tactic(auto)]

mod cards;
mod checking;
mod fields;
mod lines;
mod parts;
mod ranges;
mod reading;
mod writing;

pub use cards::{judge, may_stand};
pub use checking::check_deck;
pub use fields::sign_due;
pub use lines::write_line;
pub use reading::{card_at, first_bad, read_card, word_of};
pub use writing::{write_data, write_first, write_stop, write_trace};
