use crate::blocks::TreeBlocks;
use tect_ids::{
    BlkId, Bytes, DirId, FileId, Items, Key, Listed, Name, Node, Over, Refusal, RowPart, Token,
    Want,
};

/// A directory of the tree.
#[derive(Clone, Copy, Debug, PartialEq, Eq)]
pub struct TreeDir {
    pub parent: DirId,
    pub sealed: bool,
}

/// A file of the tree: the token that an append has to show, whether the file is closed to changes, and its blocks in order.
#[derive(Drop)]
pub struct TreeFile {
    pub token: Option<Token>,
    pub sealed: bool,
    pub blocks: TreeBlocks,
}

/// A step of the tree.
#[derive(Debug, Drop)]
pub enum TreeStep {
    Check {
        dir: DirId,
    },
    Look {
        key: Key,
    },
    List {
        dir: DirId,
    },
    MakeDir {
        dir: DirId,
        parent: DirId,
    },
    MakeFile {
        file: FileId,
        token: Option<Token>,
    },
    Bind {
        key: Key,
        node: Node,
        over: Over,
    },
    Swap {
        dir: DirId,
        from: Name,
        to: Name,
        node: Node,
    },
    Unbind {
        key: Key,
        want: Want,
    },
    GrantDir {
        dir: DirId,
    },
    GrantFile {
        file: FileId,
    },
    /// Writes a new token into the file, so that no earlier one serves any more.
    Open {
        file: FileId,
        token: Token,
    },
    /// Adds a block with its bytes at the end, for one who has the file's token.
    Attach {
        file: FileId,
        token: Token,
        blk: BlkId,
        bytes: Bytes,
    },
    Blocks {
        file: FileId,
    },
    /// Reads that many blocks of the file, from its first on.
    Read {
        file: FileId,
        count: u32,
    },
    /// Closes the directory's own level to changes.
    SealDir {
        dir: DirId,
    },
    /// Closes the file to new tokens and blocks.
    SealFile {
        file: FileId,
    },
}

/// What a step shows where it is not refused.
#[derive(Debug, Drop)]
pub enum StepValue {
    Done,
    Parent { parent: DirId, sealed: bool },
    Node { node: Node },
    Entries { sealed: bool, items: Items<Listed> },
    /// The block is the one with that index in the file.
    Attached { index: u32 },
    /// The file's blocks in order, with their lengths in bytes.
    Blocks { sealed: bool, rows: Items<RowPart> },
    /// The bytes of the blocks that were read, one after another.
    Bytes { bytes: Bytes },
}

/// What the tree says to a step.
#[derive(Debug, Drop)]
pub enum TreeReply {
    Ok { value: StepValue },
    Refused { why: Refusal },
}
