use crate::states::{Delete, List, Look, Make, NewNode, Rename, Seal};
use file_rules::{Append, Blocks, Open, Read};
use memories::PathKey;
use tect_ids::Name;

/// What a command does in the directory to which its path leads.
#[derive(Drop)]
pub enum Operation {
    /// Of a path without names the directory itself is looked at.
    Look { name: Option<Name> },
    List,
    Make { kind: NewNode, name: Name },
    Delete { name: Name },
    Rename { from: Name, to: Name },
    /// The file is kept by the whole path.
    Open { path: PathKey, name: Name },
    Blocks { name: Name },
    Read { name: Name },
    /// Of a path without names the directory itself is sealed.
    Seal { name: Option<Name> },
}

/// An operation that runs, in one of its states. Each has its rules in a file of `specs`, here or in `file_rules`.
#[derive(Drop)]
pub enum OperationState {
    Look(Look),
    List(List),
    Make(Make),
    Delete(Delete),
    Rename(Rename),
    Open(Open),
    Append(Append),
    Blocks(Blocks),
    Read(Read),
    Seal(Seal),
}
