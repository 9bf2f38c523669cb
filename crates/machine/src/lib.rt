// Load and run on a lent drum, its marks, a deck and an output. Only these two are shown; each family of orders has a module of its own.
// Drum and marks stay two parameters: C lends two runs, and of a struct of two `&mut` the taking apart did not prove.
#![tactic(auto)]

mod changing;
mod comparing;
mod desk;
mod entering;
mod going;
mod loading;
mod looping;
mod moving;
mod obeying;
mod punching;
mod reading;
mod reckoning;
mod running;
mod sums;
mod telling;
mod tracing;

pub use loading::load;
use rules::{Ending, Loading, State};
pub use running::run;

// What a call of run came to. What `run` ensures says count, output and state of a refused call too, so they stand beside the ending.
#[derive(Clone, Copy, Debug, PartialEq, Eq)]
pub struct Ran {
    pub ending: Ending,
    pub count: u64,
    pub written: usize,
    pub state: State,
}

// What a call of load came to.
#[derive(Clone, Copy, Debug, PartialEq, Eq)]
pub struct Loaded {
    pub loading: Loading,
    pub state: State,
}
