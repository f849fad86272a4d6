use crate::name_pair::NamePair;
use program_parts::Releasing;
use tect_calls::{Granted, MadeDir};
use tect_ids::{DirId, Key, Name, Node};

/// A look: at a directory itself, where the path has no names, or at an entry.
#[derive(Drop)]
pub enum Look {
    Check { dir: DirId },
    Entry { key: Key },
}

/// A listing.
#[derive(Drop)]
pub struct List {
    pub dir: DirId,
}

/// What is made: by `create` a file, which may replace a file; by `mkdir` a directory, which replaces nothing.
#[derive(Clone, Copy, Debug, PartialEq, Eq)]
pub enum NewNode {
    File,
    Dir,
}

/// A file or a directory is made, and then bound to its name.
#[derive(Drop)]
pub enum Make {
    New {
        kind: NewNode,
        dir: MadeDir,
        name: Name,
    },
    Bind {
        kind: NewNode,
        key: Key,
        node: Node,
        hold: Granted,
    },
    Release(Releasing),
}

/// A name is taken from a file.
#[derive(Drop)]
pub enum Delete {
    Unbind { key: Key },
    Release(Releasing),
}

/// A node gets another name in its directory: it is found, a hold for the new name is granted at it, and the names are swapped.
#[derive(Drop)]
pub enum Rename {
    Find {
        dir: MadeDir,
        from: Name,
        to: Name,
    },
    Grant {
        dir: MadeDir,
        names: NamePair,
        node: Node,
    },
    Swap {
        dir: DirId,
        names: NamePair,
        node: Node,
        hold: Granted,
    },
    Release(Releasing),
}

/// A directory or a file is found by its name, and sealed; of a path without names the root is sealed.
#[derive(Drop)]
pub enum Seal {
    Find { key: Key },
    Close { node: Node },
}
