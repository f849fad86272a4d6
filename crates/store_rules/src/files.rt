ghost use Rattle.std.specs.Prelude.{◌≡◌};
ghost use Rattle.store_rules.specs.Places.{file_of};

use crate::file_rows::FileRows;
use small_maps::HoldList;
use tect_ids::{BlkId, FileId, Hold, Items, Key, Refusal, RowPart, Token};

/// A file as its shard keeps it: the token that an append has to show, whether it is closed to changes, the holds of the entries
/// that name it, and its blocks in order.
#[derive(Drop)]
pub struct File {
    pub token: Option<Token>,
    pub sealed: bool,
    pub holds: HoldList,
    pub rows: FileRows,
}

/// A request to a shard of the File layer.
#[derive(Clone, Debug, PartialEq, Eq, Drop)]
pub enum FileReq {
    MakeFile {
        file: FileId,
        hold: Hold,
        key: Key,
        token: Option<Token>,
    },
    Grant {
        file: FileId,
        hold: Hold,
        key: Key,
    },
    Release {
        file: FileId,
        hold: Hold,
    },
    /// Writes a new token into the file, so that no earlier one serves any more.
    TakeToken {
        file: FileId,
        token: Token,
    },
    /// Adds a block at the end, for one who has the file's token.
    Attach {
        file: FileId,
        token: Token,
        blk: BlkId,
        len: u32,
        hold: Hold,
    },
    /// Asks for the file's blocks.
    ListBlocks {
        file: FileId,
    },
    /// Closes the file to new tokens and blocks.
    SealFile {
        file: FileId,
    },
}

impl FileReq {
    /// The file that the request concerns.
    pub fn file(&self) -> FileId
        ensures { result ≡ file_of self.now }
    {
        match self {
            FileReq::MakeFile { file, .. }
            | FileReq::Grant { file, .. }
            | FileReq::Release { file, .. }
            | FileReq::TakeToken { file, .. }
            | FileReq::Attach { file, .. }
            | FileReq::ListBlocks { file }
            | FileReq::SealFile { file } => *file,
        }
    }
}

/// What a shard of the File layer replies.
#[derive(Clone, Debug, PartialEq, Eq, Drop)]
pub enum FileReply {
    Made,
    Granted,
    Released { was: bool },
    Opened,
    /// The block is the one with that index in the file.
    Attached { index: u32 },
    /// The file's blocks in order, with their lengths.
    Blocks { sealed: bool, rows: Items<RowPart> },
    SealedNow,
    /// A file with that identifier stands. No command answers it.
    HasId,
    Refused { why: Refusal },
}
