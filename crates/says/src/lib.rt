// What the program writes of its own: the closing of a call, as bytes, and texts for a person, on standard error. Each function that is
// shown here takes any bytes and any numbers.
#![tactic(auto)]

mod closing;
mod texts;

pub use closing::{write_closing, write_making};
pub use texts::{
    failed, help, kept, link, missing, no_first, not_cells, refused, replaced, too_long, unknown,
    usage, wrong,
};
