//! Finite maps of blocks and of chunks, and which blocks have a row on which disk.
#![tactic(auto)]

mod blks_on_disk;
mod by_blk;
mod by_chunk;
mod disk_blk;
mod disk_index;
mod on_disk;

pub use blks_on_disk::BlksOnDisk;
pub use by_blk::BlkMap;
pub use by_chunk::ChunkMap;
pub use disk_blk::DiskBlk;
pub use disk_index::DiskIndex;
pub use on_disk::DiskCursor;
