// The machine file, written and read, and the text of cells, read. Each function that is shown here takes any bytes and any numbers.
#![tactic(auto)]

mod parts;
mod reading;
mod texts;
mod writing;

pub use reading::read_file;
pub use texts::read_cells;
pub use writing::write_file;
