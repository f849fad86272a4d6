//! The layers: a shard of any of them, and one that is lent by whoever keeps it. What is to know of a layer's own shards stands
//! here alone.
#![tactic(auto)]

mod lent;
mod machine;

pub use lent::LentMachine;
pub use machine::{AnyMachine, LAYERS};
