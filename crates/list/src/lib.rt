// Cards and cells as lines that people read. Each function that is shown here takes any bytes and any numbers.
#![tactic(auto)]

mod cards;
mod cells;
mod ends;
mod kinds;
mod listing;
mod marked;
mod parts;
mod stops;
mod traces;

pub use cells::write_cell;
pub use ends::{Seen, is_second, last_line, none_seen, with_kind};
pub use listing::{Lines, write_lines};
pub use marked::write_cells;
