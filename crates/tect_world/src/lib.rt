//! The whole world on one thread: all shards with their histories and all actors with their passes, and the order in which
//! all was done.
#![tactic(auto)]

mod acting;
mod history;
mod world;

pub use program_calls::Turned;
pub use world::World;
