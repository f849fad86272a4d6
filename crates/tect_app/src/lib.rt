//! The program as one call over a source and a sink: the words of the command line, the input and the output.
//!
//! So far it has two modes, which read a script, and write the answer of each command, each dump, and `end`. `replay` plays
//! the lines one after another on a store on one thread. `race --workers N` plays each client's lines one after another, and
//! the clients side by side on so many threads.
#![tactic(auto)]

mod input;
mod mode;
mod racing;
mod refusal;
mod status;
#[cfg(test)]
mod tests;
mod top;

pub use status::Status;
pub use top::{run, run_race, run_replay};
