// The words of a call of the program, as bytes: what each says, and what all of them ask for. Each function that is shown here takes any
// bytes and any numbers.
#![tactic(auto)]

mod options;
mod words;

pub use options::{
    Options, Turn, at_end, budget_of, first_of, is_traced, lacks_first, problem_of, start_of,
    switches_of, with_next, with_word,
};
pub use words::{Asked, Command, Trouble, asked_by, behind_names, command_of};
