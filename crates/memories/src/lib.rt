//! What an actor knows between its commands: how many objects it made, and which files it opened.
#![tactic(auto)]

mod memory;
mod opened_files;
mod path_key;

pub use memory::Memory;
pub use opened_files::OpenedFile;
pub use path_key::PathKey;
