// The machine: it runs program files on 64-bit words (01, "Runs, words, samples").
#![tactic(auto)]

mod runs;
mod state;
mod steps;

pub use runs::{Run, resume, start};
pub use state::State;
