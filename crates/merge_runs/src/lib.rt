//! One history of all places and of all actors.
#![tactic(auto)]

mod agree;
mod fault;
mod gathered;
mod keyed;
mod merged;
mod sorted;
mod split;
mod spot;

pub use fault::GatherFault;
pub use gathered::{gather, gather_lent};
pub use merged::Merged;
pub use spot::Spot;

#[cfg(test)]
mod tests;
