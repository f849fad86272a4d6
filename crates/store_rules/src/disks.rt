ghost use Rattle.std.specs.Prelude.{◌≡◌};
ghost use Rattle.store_rules.specs.Places.{disk_of};

use tect_ids::{Bytes, ChunkKey, DiskId};

/// A request to a disk.
#[derive(Clone, Debug, PartialEq, Eq, Drop)]
pub enum DiskReq {
    /// Keeps the bytes of a block under a tag of one of its rows.
    Put { chunk: ChunkKey, bytes: Bytes },
    /// Asks for the bytes.
    Get { chunk: ChunkKey },
}

impl DiskReq {
    /// The disk that the request concerns.
    pub fn disk(&self) -> DiskId
        ensures { result ≡ disk_of self.now }
    {
        match self {
            DiskReq::Put { chunk, .. } | DiskReq::Get { chunk } => chunk.disk,
        }
    }
}

/// What a disk replies.
#[derive(Clone, Debug, PartialEq, Eq, Drop)]
pub enum DiskReply {
    Stored,
    Got { bytes: Bytes },
    /// The disk has a chunk of that block and tag.
    HasChunk,
    NoChunk,
    /// The disk is lost with all its chunks. No disk can be lost so far.
    Lost,
}
