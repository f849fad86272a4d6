//! Shards and disks with the histories that made them.
#![tactic(auto)]

mod any;
mod any_prepared;
mod blocks;
mod disks;
mod files;
mod kept;
mod machine;
mod names;
mod opening;
mod prepared;

pub use any::AnyKept;
pub use any_prepared::AnyPrepared;
pub use kept::Kept;
pub use machine::Machine;
pub use prepared::Prepared;

#[cfg(test)]
mod tests;
