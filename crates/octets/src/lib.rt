// Bytes copied, and decimal digits written and read, each in one place. Each function that is shown here takes any bytes and any numbers:
// what does not fit where it is to stand is not written.
#![tactic(auto)]

mod fields;
mod puts;
mod reads;
mod rooms;

pub use fields::{put_field, put_word, width_of};
pub use puts::{copy, put_byte, put_run};
pub use reads::{DigitError, byte_at, is_digit, number_in, with_digit};
pub use rooms::room;
