//! The small machine that the store is compared with: a tree of names, and files with their bytes, with one step for each
//! visible change. It knows nothing of layers, shards, holds, disks and caches.
#![tactic(auto)]

mod blocks;
mod files;
mod seals;
mod step;
mod tree;

pub use blocks::{TreeBlock, TreeBlocks};
pub use step::{StepValue, TreeDir, TreeFile, TreeReply, TreeStep};
pub use tree::Tree;

#[cfg(test)]
mod tests;
