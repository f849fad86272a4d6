//! A few pairs with rising keys, in one vector.
#![tactic(auto)]

mod scan;
mod sorted;

pub use scan::Pairs;
pub use sorted::SortedVec;
