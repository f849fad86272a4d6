//! Programs of commands as code: what the actors of any programs call.
#![tactic(auto)]

mod programs;
mod turned;
mod went;

pub use programs::Programs;
pub use turned::Turned;
pub use went::Went;
