//! What a client keeps of sealed objects, so that it need not ask for them again: of sealed directories their listings, of sealed files
//! their lists of blocks, and where blocks lie. Each list has the latest used first, and the last beyond its bound is dropped.
#![tactic(auto)]

mod blocks;
mod cache;
mod listing;
mod lookups;

pub use blocks::SealedBlocks;
pub use cache::SealedCache;
pub use listing::SealedListing;

#[cfg(test)]
mod tests;
