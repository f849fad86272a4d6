//! All shards of the store on one thread, each with the history that made it: each request is done at the shard of its place.
#![tactic(auto)]

mod commits;
mod lending;
mod shards;

pub use shards::KeptShards;

#[cfg(test)]
mod tests;
