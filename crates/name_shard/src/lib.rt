//! A shard of the Name layer: directories and their entries.
#![tactic(auto)]

mod bindings;
mod directories;
mod dump;
mod readings;
mod refused;
mod shard;

pub use shard::NameShard;
