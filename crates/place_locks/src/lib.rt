//! Shards with their histories behind locks, one lock for each, and commits under the one lock of a request's shard.
//!
//! What stands behind a lock at a moment no contract tells. A commit therefore asks for the label of what it finds, and
//! refuses a machine that is not the one that the place was started with. [`Locked`] is where a worker's requests are committed.
#![tactic(auto)]

mod commits;
mod locked;
mod opening;
mod places;
mod taking;

pub use locked::Locked;
pub use places::Places;

#[cfg(test)]
mod tests;
