// The built codes: the project's one table of them, and how the code of an order is found in it. Each function that is shown here takes any
// numbers.
#![tactic(auto)]

mod keys;
mod rows;
mod slots;

pub use keys::{code_of, key_of, slot_of};
pub use rows::{look_up, name_of};
pub use slots::{built_at, index};
