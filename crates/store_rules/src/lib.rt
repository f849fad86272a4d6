//! The requests of each layer, what a shard replies, and the rules: one definition for each request.
#![tactic(auto)]

mod any;
mod blocks;
mod disks;
mod file_rows;
mod files;
mod names;
mod outcome;
mod replies;

pub use any::{AnyReply, AnyReq};
pub use blocks::{Block, BlockReply, BlockReq};
pub use disks::{DiskReply, DiskReq};
pub use file_rows::{FileRow, FileRows};
pub use files::{File, FileReply, FileReq};
pub use names::{Directory, DirectoryEntry, NameReply, NameReq, Replaced};
pub use outcome::Outcome;
