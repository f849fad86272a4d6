//! A race: the clients of a script run side by side on workers, each that has something to do in a thread of its own, over locked
//! shards. What they did is one run of the world.
#![tactic(auto)]

mod part_ends;
mod racing;
mod rounds;
mod threads;
mod workers;

pub use race_ends::{RaceFault, Raced};
pub use racing::race;
