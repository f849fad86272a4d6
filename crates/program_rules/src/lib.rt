//! What each command asks, and how it goes on at a reply: the states of its operation, and the rules of each as functions. The rules of a
//! command on names, and of `seal`, stand in a file of `specs` with its name; those on the contents of files in `file_rules`.
#![tactic(auto)]

mod name_pair;
mod operation;
mod states;

pub use name_pair::NamePair;
pub use operation::{Operation, OperationState};
pub use states::{Delete, List, Look, Make, NewNode, Rename, Seal};
