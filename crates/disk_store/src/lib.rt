//! A shard of the disks: chunks of blocks, by disk, block and tag.
#![tactic(auto)]

mod dump;
mod shard;

pub use shard::Disk;
