ghost use Rattle.std.specs.Prelude.{◌≡◌};
ghost use Rattle.store_rules.specs.Places.{blk_of};

use small_maps::{BlockRows, HoldList};
use tect_ids::{BlkId, Class, FileId, Hold, Items, NewRow, Row};

/// A block as its shard keeps it: its length in bytes, whether it is closed to changes of its bytes, how often its rows were
/// exchanged, the holds of the files that list it, and its rows, which say on what disks it lies.
#[derive(Drop)]
pub struct Block {
    pub class: Class,
    pub len: u32,
    pub sealed: bool,
    pub version: u64,
    pub holds: HoldList,
    pub rows: BlockRows,
}

/// A request to a shard of the Block layer.
#[derive(Clone, Debug, PartialEq, Eq, Drop)]
pub enum BlockReq {
    /// Makes a block for a file, with rows that are not placed yet.
    MakeBlock {
        blk: BlkId,
        class: Class,
        len: u32,
        file: FileId,
        hold: Hold,
        rows: Items<NewRow>,
    },
    /// Closes the block: its bytes stand on all its disks.
    SealBlock {
        blk: BlkId,
    },
    /// Asks where the block lies.
    GetBlock {
        blk: BlkId,
    },
    Grant {
        blk: BlkId,
        hold: Hold,
        file: FileId,
    },
    Release {
        blk: BlkId,
        hold: Hold,
    },
}

impl BlockReq {
    /// The block that the request concerns.
    pub fn blk(&self) -> BlkId
        ensures { result ≡ blk_of self.now }
    {
        match self {
            BlockReq::MakeBlock { blk, .. }
            | BlockReq::SealBlock { blk }
            | BlockReq::GetBlock { blk }
            | BlockReq::Grant { blk, .. }
            | BlockReq::Release { blk, .. } => *blk,
        }
    }
}

/// What a shard of the Block layer replies.
#[derive(Clone, Debug, PartialEq, Eq, Drop)]
pub enum BlockReply {
    Made,
    SealedNow,
    /// Where the block lies, its rows by disk.
    BlockIs {
        class: Class,
        len: u32,
        sealed: bool,
        version: u64,
        rows: Items<Row>,
    },
    Granted,
    Released {
        was: bool,
    },
    /// A block with that identifier stands.
    HasId,
    NoBlock,
    /// The block is sealed already.
    Sealed,
    /// The block is not sealed yet.
    NotSealed,
}
