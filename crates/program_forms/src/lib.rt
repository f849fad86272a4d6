//! Programs of commands, as functions over any states: how a command begins, what it does next, and how it goes on at a reply.
//! Nothing here is called: the laws of runs are over any such programs.
#![tactic(auto)]

mod heard;
mod standing;

pub use heard::Heard;
pub use standing::Standing;
