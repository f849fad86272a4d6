//! A shard of the File layer: files with their tokens, holds and rows.
#![tactic(auto)]

mod dump;
mod refused;
mod requests;
mod rows;
mod seals;
mod shard;
mod tokens;

pub use shard::FileShard;
