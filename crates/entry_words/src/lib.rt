//! The words of histories: what a shard and an actor keep of a transaction, what an actor notes of its ops, and what a kept
//! shard is labelled with.
#![tactic(auto)]

mod entry;
mod labels;

pub use entry::{CLOCK_LIMIT, Entry, Label, Moment, Note, Refused};
pub use labels::label_at;
