//! A shard of the Block layer: blocks with their rows and holds.
#![tactic(auto)]

mod dump;
mod indexed;
mod requests;
mod shard;

pub use shard::BlockShard;
