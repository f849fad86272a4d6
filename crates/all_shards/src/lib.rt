//! All shards and disks of the store on one thread: each request is done at the shard of its directory, file or block, or at
//! its disk.
#![tactic(auto)]

mod dump;
mod shards;

pub use dump::LentShards;
pub use shards::Shards;
