//! Players of a client's lines: whoever begins commands of one actor and goes on with them step by step does what a script's
//! line asks, and tells the line of its answer.
#![tactic(auto)]

mod acts;
mod fault;
mod player;
mod stepping;

pub use acts::play;
pub use fault::RacerFault;
pub use player::Player;
