ghost use Rattle.std.specs.Prelude.{◌≡◌};
ghost use Rattle.store_rules.specs.Places.{dir_of};

use small_maps::HoldList;
use tect_ids::{DirId, FileId, Hold, Items, Key, Listed, Name, Node, Over, Refusal, Want};

/// A directory as its shard keeps it. Its entries stand beside it, each under its own key.
#[derive(Drop)]
pub struct Directory {
    pub parent: DirId,
    pub sealed: bool,
    pub holds: HoldList,
}

/// An entry: what it names, and the hold that keeps it.
#[derive(Clone, Copy, Debug, PartialEq, Eq)]
pub struct DirectoryEntry {
    pub node: Node,
    pub hold: Hold,
}

/// The file that a bind or a swap took the name from, and the hold that it had.
#[derive(Clone, Copy, Debug, PartialEq, Eq)]
pub struct Replaced {
    pub file: FileId,
    pub hold: Hold,
}

/// A request to a shard of the Name layer.
#[derive(Clone, Debug, PartialEq, Eq, Drop)]
pub enum NameReq {
    CheckDir {
        dir: DirId,
    },
    Look {
        key: Key,
    },
    List {
        dir: DirId,
    },
    MakeDir {
        dir: DirId,
        parent: DirId,
        hold: Hold,
        key: Key,
    },
    Bind {
        key: Key,
        node: Node,
        hold: Hold,
        over: Over,
    },
    Swap {
        dir: DirId,
        from: Name,
        to: Name,
        node: Node,
        hold: Hold,
    },
    Unbind {
        key: Key,
        want: Want,
    },
    Grant {
        dir: DirId,
        hold: Hold,
        key: Key,
    },
    Release {
        dir: DirId,
        hold: Hold,
    },
    /// Closes the directory's own level to changes.
    SealDir {
        dir: DirId,
    },
}

impl NameReq {
    /// The directory that the request concerns.
    pub fn dir(&self) -> DirId
        ensures { result ≡ dir_of self.now }
    {
        match self {
            NameReq::CheckDir { dir }
            | NameReq::List { dir }
            | NameReq::MakeDir { dir, .. }
            | NameReq::Swap { dir, .. }
            | NameReq::Grant { dir, .. }
            | NameReq::Release { dir, .. }
            | NameReq::SealDir { dir } => *dir,
            NameReq::Look { key } | NameReq::Bind { key, .. } | NameReq::Unbind { key, .. } => {
                key.dir
            }
        }
    }
}

/// What a shard of the Name layer replies.
#[derive(Clone, Debug, PartialEq, Eq, Drop)]
pub enum NameReply {
    DirIs { parent: DirId, sealed: bool },
    Found { node: Node },
    Listing { sealed: bool, items: Items<Listed> },
    Made,
    Bound { old: Option<Replaced> },
    Swapped { hold: Hold, old: Option<Replaced> },
    Unbound { node: Node, hold: Hold },
    Granted,
    Released { was: bool },
    SealedNow,
    /// An object with that identifier stands. No command answers it.
    HasId,
    Refused { why: Refusal },
}
